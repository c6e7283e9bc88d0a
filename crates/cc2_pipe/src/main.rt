//! Reads a request from standard input and writes its reply to standard output, for callers that would rather start a
//! process than link a library. It ends with 0; with 1 and a line on standard error where there is no reply.
#![tactic(auto)]

use cc2_reply::reply_bytes;
use std::io::{Read, Write};
use std::process::ExitCode;

fn main(rt: HostRuntime) -> ExitCode {
    match piped(&rt) {
        Ok(()) => ExitCode::SUCCESS,
        Err(fault) => {
            let _ = rt.stderr().write_all(fault.line().as_bytes());
            ExitCode::FAILURE
        }
    }
}

// Why there is no reply.
#[derive(Clone, Copy, Debug)]
enum Fault {
    // The request can't be read.
    Input,
    // Memory ran out.
    Memory,
    // The reply can't be written.
    Output,
}

impl Fault {
    fn line(self) -> &'static str {
        match self {
            Fault::Input => "error: the request cannot be read\n",
            Fault::Memory => "error: out of memory\n",
            Fault::Output => "error: the output cannot be written\n",
        }
    }
}

// Reads the request and writes its reply.
fn piped(rt: &HostRuntime) -> Result<(), Fault> {
    let mut request = Vec::new(rt.alloc());
    if rt.stdin().read_to_end(&mut request).is_err() {
        return Err(Fault::Input);
    }
    let Ok(reply) = reply_bytes(rt.alloc(), request.as_slice()) else {
        return Err(Fault::Memory);
    };
    match rt.stdout().write_all(reply.as_slice()) {
        Ok(()) => Ok(()),
        Err(_) => Err(Fault::Output),
    }
}
