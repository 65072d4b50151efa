// What the benchmark of the checksum links: the sum in blocks and the serial one, over plain bytes and over a whole frame.
#![tactic(auto)]

ghost use Rattle.std.specs.Prelude.{◌≡◌};
ghost use Rattle.checksum.specs.Checksum.{sum_from};
ghost use Rattle.frame.specs.Frame.{frame_at, checksum_of};

#[unsafe(no_mangle)]
pub extern "C" fn port_sum_over(bytes: &[u8], start: u32) -> u32
    ensures { result ≡ sum_from start bytes.now }
{
    checksum::sum_over(bytes, start)
}

#[unsafe(no_mangle)]
pub extern "C" fn port_sum_serial(bytes: &[u8], start: u32) -> u32
    ensures { result ≡ sum_from start bytes.now }
{
    checksum::sum_serial(bytes, start)
}

// The checksum of the frame at the front of a log.
#[unsafe(no_mangle)]
pub extern "C" fn port_frame_sum(log: &[u8]) -> u32
    ensures { result ≡ checksum_of (frame_at 0 log.now) }
{
    frame::compute_checksum(log, 0)
}

// The same as `frame::compute_checksum`, but serial.
#[unsafe(no_mangle)]
pub extern "C" fn port_frame_serial(log: &[u8]) -> u32
    ensures { result ≡ checksum_of (frame_at 0 log.now) }
{
    let sum = checksum::sum_serial(le::part(log, 0, 12), 0);
    checksum::sum_serial(frame::frame_body(log, 0), sum)
}
