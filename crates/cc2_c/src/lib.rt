//! What C, Rust and other languages call: one function, bytes in and bytes out. It depends on `cc2_reply`.
#![tactic(auto)]

ghost use Rattle.std.specs.Prelude.{◌≡◌, length};
ghost use Rattle.cc2_c.specs.Exported.{IsWritten};

use cc2_ask::write_front;
use cc2_reply::reply_bytes;
use std::alloc::Global;

/// Writes what fits of the reply to a request, and answers its whole length; 0 where memory ran out, and then nothing is
/// written. The reply to a malformed request is the byte `B`.
#[unsafe(no_mangle)]
pub extern "C" fn cc2_ask(alloc: Global, request: &[u8], reply: &mut [u8]) -> usize
    ensures written { IsWritten request.now reply.old reply.new result }
    ensures room { length reply.new ≡ length reply.old }
{
    match reply_bytes(alloc, request) {
        Ok(bytes) => {
            write_front(bytes.as_slice(), reply);
            bytes.len()
        }
        Err(_) => 0,
    }
}
