use hal_outside::DeviceFault;

/// Why reads could not go on. docs/CLUSTER.md, "Reads and misses".
#[derive(Clone, Copy)]
pub enum ReadFault {
    Device(DeviceFault),
    /// The 1,000th read of the run missed.
    Misses,
    Memory,
}
