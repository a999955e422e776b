// The conversion of addresses and times alone, under C names: trials/gate looks at its machine code, and bench/conversion times it.
#![tactic(auto)]

ghost use Rattle.std.specs.Prelude.{◌≡◌};
ghost use Rattle.conversion.specs.Conversion.{number_given, time_given, address_given};
ghost use Rattle.mmc.specs.Times.{time_of, address_of};

use mmc::times::{Time, address_of, time_of};
use mmc::units::BlockAddress;

// Writes the time of an address as minute, second and frame, and answers 0; or answers the refusal's number and writes nothing.
#[unsafe(no_mangle)]
pub extern "C" fn conversion_time(address: i64, time: &mut [u8; 3]) -> u8
    ensures { (result ≡ number_given (time_of (record { 0 = address }))) × (time.new ≡ time_given (time_of (record { 0 = address })) time.old) }
{
    match time_of(BlockAddress(address)) {
        Ok(t) => {
            *time = [t.minute, t.second, t.frame];
            0
        }
        Err(r) => u8::from(r),
    }
}

// Writes the address of a time, and answers 0; or answers the refusal's number and writes nothing.
#[unsafe(no_mangle)]
pub extern "C" fn conversion_address(minute: u8, second: u8, frame: u8, address: &mut i64) -> u8
    ensures { (result ≡ number_given (address_of (record { minute = minute; second = second; frame = frame }))) × (address.new ≡ address_given (address_of (record { minute = minute; second = second; frame = frame })) address.old) }
{
    let time = Time {
        minute,
        second,
        frame,
    };
    match address_of(time) {
        Ok(a) => {
            *address = a.0;
            0
        }
        Err(r) => u8::from(r),
    }
}
