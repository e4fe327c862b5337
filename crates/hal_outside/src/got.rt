/// What a read of a node's file is answered.
#[derive(Drop)]
pub enum Got {
    /// The bytes of the file, which has the wanted digest.
    Same(Vec<u8>),
    /// There is no such file.
    Gone,
    /// The file has another digest.
    Other,
}
