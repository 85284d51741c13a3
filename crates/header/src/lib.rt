// The packet header of 8 bytes, both ways.

#![tactic(auto)]

ghost use Rattle.std.specs.Prelude.{◌≡◌, ◌+◌, ◌≤◌, length};
ghost use Rattle.format.specs.Answer.{further, read_at, fitted, wrote, room_after};
ghost use Rattle.format.specs.Header.{packet_types, packet_statuses, read_header, write_header};
ghost use Rattle.wire.specs.Told.{answer_told};
ghost use Rattle.header.specs.Told.{header_fields, header_told};

use wire::{Cursor, Refusal};

// The packet types, by their names in MS-TDS, "Packet Header".
#[derive(Clone, Copy, Debug, PartialEq, Eq)]
pub enum PacketType {
    SqlBatch = 1,
    PreTds7Login = 2,
    Rpc = 3,
    TabularResult = 4,
    AttentionSignal = 6,
    BulkLoad = 7,
    FederatedAuthenticationToken = 8,
    TransactionManagerRequest = 14,
    Tds7Login = 16,
    Sspi = 17,
    Prelogin = 18,
}

// The packet statuses that document 01 lists, the five that the Rust has.
#[derive(Clone, Copy, Debug, PartialEq, Eq)]
pub enum PacketStatus {
    Normal = 0,
    EndOfMessage = 1,
    IgnoreEvent = 3,
    ResetConnection = 8,
    ResetConnectionSkipTran = 16,
}

#[derive(Clone, Copy, Debug, PartialEq, Eq)]
pub struct Header {
    pub ty: PacketType,
    pub status: PacketStatus,
    pub length: u16,
    pub spid: u16,
    pub id: u8,
    pub window: u8,
}

// The byte of a packet type.
impl From<PacketType> for u8 {
    ghost use Rattle.header.specs.Told.{type_byte};

    ghost from_gives = { λ t b. b ≡ type_byte t };

    fn from(t: PacketType) -> u8 {
        t as u8
    }
}

// The packet type whose byte it is.
impl TryFrom<u8> for PacketType {
    ghost use Rattle.wire.specs.Told.{known};
    ghost use Rattle.header.specs.Told.{type_told};

    type Error = Refusal;

    ghost try_from_gives = { λ b r. type_told r ≡ known packet_types b };

    #[tactic(auto, unfolding(wire::specs::Told::known))]
    fn try_from(b: u8) -> Result<PacketType, Refusal> {
        match b {
            1 => Ok(PacketType::SqlBatch),
            2 => Ok(PacketType::PreTds7Login),
            3 => Ok(PacketType::Rpc),
            4 => Ok(PacketType::TabularResult),
            6 => Ok(PacketType::AttentionSignal),
            7 => Ok(PacketType::BulkLoad),
            8 => Ok(PacketType::FederatedAuthenticationToken),
            14 => Ok(PacketType::TransactionManagerRequest),
            16 => Ok(PacketType::Tds7Login),
            17 => Ok(PacketType::Sspi),
            18 => Ok(PacketType::Prelogin),
            _ => Err(Refusal::Unknown),
        }
    }
}

// The byte of a packet status.
impl From<PacketStatus> for u8 {
    ghost use Rattle.header.specs.Told.{status_byte};

    ghost from_gives = { λ t b. b ≡ status_byte t };

    fn from(t: PacketStatus) -> u8 {
        t as u8
    }
}

// The packet status whose byte it is.
impl TryFrom<u8> for PacketStatus {
    ghost use Rattle.wire.specs.Told.{known};
    ghost use Rattle.header.specs.Told.{status_told};

    type Error = Refusal;

    ghost try_from_gives = { λ b r. status_told r ≡ known packet_statuses b };

    #[tactic(auto, unfolding(wire::specs::Told::known))]
    fn try_from(b: u8) -> Result<PacketStatus, Refusal> {
        match b {
            0 => Ok(PacketStatus::Normal),
            1 => Ok(PacketStatus::EndOfMessage),
            3 => Ok(PacketStatus::IgnoreEvent),
            8 => Ok(PacketStatus::ResetConnection),
            16 => Ok(PacketStatus::ResetConnectionSkipTran),
            _ => Err(Refusal::Unknown),
        }
    }
}

// The header that the rest of the input, from `at` on, begins with.
fn header_in(rest: &[u8], at: usize) -> Result<(Header, Cursor), Refusal>
    requires { at + length rest.now ≤ 18446744073709551615 }
    ensures { header_told result ≡ further at (read_header rest.now) }
{
    if rest.len() < 8 {
        return Err(Refusal::Missing);
    }
    let ty = PacketType::try_from(rest[0])?;
    let status = PacketStatus::try_from(rest[1])?;
    let length = wire::inner::high_at(rest, 2, 2) as u16;
    let spid = wire::inner::high_at(rest, 4, 2) as u16;
    Ok((
        Header {
            ty,
            status,
            length,
            spid,
            id: rest[6],
            window: rest[7],
        },
        Cursor { at: at + 8 },
    ))
}

// The header at a place of the input, and the next place.
pub fn read_header(s: &[u8], from: Cursor) -> Result<(Header, Cursor), Refusal>
    ensures { header_told result ≡ read_at read_header s.now from.at }
{
    let at = from.at;
    if s.len() < at {
        return Err(Refusal::Missing);
    }
    header_in(&s[at..], at)
}

// The header at the front of the room.
pub fn write_header(h: Header, out: &mut [u8]) -> Result<usize, Refusal>
    ensures answer { answer_told result ≡ wrote (fitted (write_header (header_fields h)) (length out.old)) }
    ensures room { out.new ≡ room_after (fitted (write_header (header_fields h)) (length out.old)) out.old }
{
    if out.len() < 8 {
        return Err(Refusal::Room);
    }
    out[0] = u8::from(h.ty);
    out[1] = u8::from(h.status);
    wire::inner::put_high(out, 2, h.length as u64, 2);
    wire::inner::put_high(out, 4, h.spid as u64, 2);
    out[6] = h.id;
    out[7] = h.window;
    Ok(8)
}
