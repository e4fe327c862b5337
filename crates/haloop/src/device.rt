ghost use Rattle.std.specs.Prelude.{◌≡◌, ◌≤ℤ◌, pos, IfNone, IfSome};
ghost use Rattle.std.specs.IoError.{raw_os_error};

use hal_outside::DeviceFault;
use std::io;

/// Says on the standard error what failed, and the system's reason: `haloop: NAME: REASON`. Where that fails too,
/// nothing is said. docs/FORMATS.md, "Statuses".
pub fn tell_failure<R: Eprint>(runtime: &R, name: &str, error: &io::Error) {
    let _said = eprintln!(runtime; "haloop: {name}: {error}");
}

/// The fault of a device that failed so. Its code is the system's error number, or 0 where there is none.
pub fn device_fault(error: &io::Error) -> DeviceFault
    ensures number { IfSome (raw_os_error error.now) (λ n. pos 0 ≤ℤ n → pos result.code ≡ n) }
    ensures none { IfNone (raw_os_error error.now) (result.code ≡ 0) }
{
    let number = error.raw_os_error().unwrap_or(0);
    DeviceFault {
        code: u32::try_from(number).unwrap_or(0),
    }
}
