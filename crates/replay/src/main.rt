// The replay program: one box, whose engine gets the records of standard input (u32 body length, u16 kind,
// body) as writes, reads, resets and packets, a line printed for each.
#![tactic(auto)]

mod kind;
mod session;

use crate::session::{Session, given};
use engine::rooms::Rooms;
use engine::types::Engine;
use record::print::Printer;
use std::io;
use std::io::ErrorKind;
use storage::types::Board;
use transport::port::Port;

// The box: a NOR of 32,768 bytes 0xFF, a partition `app`, scratch of 4,096 zero bytes at 0x40000000.
// lab's `main` is like it in its arrays, which are rooms of other lengths: each has to stand in the program's frame.
fn main(rt: HostRuntime) -> io::Result<()> {
    let mut input = rt.stdin();
    let mut out = Printer::new(rt.stdout());
    let mut body = [0u8; 4096];
    let mut request = [0u8; 8208];
    let mut reply = [0u8; 4112];
    let mut chip = [255u8; 32768];
    let mut buffer = [0u8; 4096];
    let mut scratch = [0u8; 4096];
    let mut sent = [0u8; 4125];
    let board = Board {
        base: 0x4000_0000,
        stage: 0,
        device: 0,
    };
    let opened = Engine::open_nor(
        &request,
        &reply,
        &chip,
        &buffer,
        &scratch,
        &given().partitions,
        board,
    );
    let Ok(engine) = opened else {
        return Err(io::Error::from(ErrorKind::InvalidInput));
    };
    let mut session = Session {
        engine,
        port: Port::start(),
        request: &mut request,
        rooms: Rooms {
            reply: &mut reply,
            chip: &mut chip,
            buffer: &mut buffer,
            scratch: &mut scratch,
        },
        sent: &mut sent,
    };
    record::run(&mut input, &mut out, &mut body, &mut session)
}
