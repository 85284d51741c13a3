// header_read, header_write, prelogin_write.

#![tactic(auto)]

use header::{Header, PacketStatus, PacketType};
use prelogin::{Encryption, Prelogin};
use replay_say::fields::Fields;
use replay_say::say;
use std::{fmt, io};
use wire::Cursor;

// The six numbers of a header.
#[derive(Clone, Copy)]
struct Words(Header);

impl fmt::Display for Words {
    fn fmt<W: fmt::Write>(&self, f: &mut fmt::Formatter<W>) -> fmt::Result {
        let h = self.0;
        let (ty, status) = (u8::from(h.ty), u8::from(h.status));
        write!(
            f,
            "{ty} {status} {} {} {} {}",
            h.length, h.spid, h.id, h.window
        )
    }
}

pub fn header_read(rt: &impl Print, mut frame: Fields) -> io::Result<()> {
    let from = Cursor { at: frame.place() };
    let answer = header::read_header(frame.input(), from);
    say::read(rt, answer.map(|(h, next)| (Words(h), next)))
}

pub fn header_write(rt: &impl Print, mut frame: Fields, room: &mut [u8]) -> io::Result<()> {
    let room = frame.room(room);
    let Ok(ty) = PacketType::try_from(frame.byte()) else {
        return say::bad(rt);
    };
    let Ok(status) = PacketStatus::try_from(frame.byte()) else {
        return say::bad(rt);
    };
    let h = Header {
        ty,
        status,
        length: frame.two(),
        spid: frame.two(),
        id: frame.byte(),
        window: frame.byte(),
    };
    let answer = header::write_header(h, room);
    say::wrote(rt, answer, room)
}

pub fn prelogin_write(rt: &impl Print, mut frame: Fields, room: &mut [u8]) -> io::Result<()> {
    let room = frame.room(room);
    let p = Prelogin {
        version: frame.four(),
        sub_build: frame.two(),
        encryption: Encryption::try_from(frame.byte()).unwrap_or(Encryption::Required),
        thread_id: frame.four(),
        mars: frame.flag(),
        fed_auth_required: frame.flag(),
    };
    let answer = prelogin::write_prelogin(p, room);
    say::wrote(rt, answer, room)
}
