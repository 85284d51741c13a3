// type_read, type_write, and a column's 66 bytes in a frame.

#![tactic(auto)]

use column_type::{Collation, Column, Name, Schema, TypeId};
use replay_say::fields::Fields;
use replay_say::say;
use std::{fmt, io};
use wire::Cursor;

fn name(frame: &mut Fields) -> Name {
    Name {
        start: frame.place(),
        units: frame.place(),
    }
}

fn schema(frame: &mut Fields) -> Option<Schema> {
    let given = frame.flag();
    let schema = Schema {
        database: name(frame),
        owner: name(frame),
        collection: name(frame),
    };
    if given { Some(schema) } else { None }
}

fn collation(frame: &mut Fields) -> Option<Collation> {
    let given = frame.flag();
    let collation = Collation {
        info: frame.four(),
        sort: frame.byte(),
    };
    if given { Some(collation) } else { None }
}

// The column that a frame has next.
pub fn column(frame: &mut Fields) -> Column {
    Column {
        ty: TypeId::try_from(frame.byte()).unwrap_or(TypeId::Udt),
        length: frame.eight(),
        precision: frame.byte(),
        scale: frame.byte(),
        collation: collation(frame),
        schema: schema(frame),
    }
}

#[derive(Clone, Copy)]
struct NameWords(Name);

impl fmt::Display for NameWords {
    fn fmt<W: fmt::Write>(&self, f: &mut fmt::Formatter<W>) -> fmt::Result {
        write!(f, "{} {}", self.0.start, self.0.units)
    }
}

#[derive(Clone, Copy)]
struct SchemaWords(Option<Schema>);

impl fmt::Display for SchemaWords {
    fn fmt<W: fmt::Write>(&self, f: &mut fmt::Formatter<W>) -> fmt::Result {
        let Some(s) = self.0 else {
            return f.write_str("0 0 0 0 0 0 0");
        };
        let (database, owner) = (NameWords(s.database), NameWords(s.owner));
        write!(f, "1 {database} {owner} {}", NameWords(s.collection))
    }
}

#[derive(Clone, Copy)]
struct CollationWords(Option<Collation>);

impl fmt::Display for CollationWords {
    fn fmt<W: fmt::Write>(&self, f: &mut fmt::Formatter<W>) -> fmt::Result {
        let Some(c) = self.0 else {
            return f.write_str("0 0 0");
        };
        write!(f, "1 {} {}", c.info, c.sort)
    }
}

// The fourteen numbers of a column.
#[derive(Clone, Copy)]
pub struct Words(pub Column);

impl fmt::Display for Words {
    fn fmt<W: fmt::Write>(&self, f: &mut fmt::Formatter<W>) -> fmt::Result {
        let c = self.0;
        let ty = u8::from(c.ty);
        let (collation, schema) = (CollationWords(c.collation), SchemaWords(c.schema));
        write!(
            f,
            "{ty} {} {} {} {collation} {schema}",
            c.length, c.precision, c.scale
        )
    }
}

pub fn type_read(rt: &impl Print, mut frame: Fields) -> io::Result<()> {
    let from = Cursor { at: frame.place() };
    let answer = column_read::read_column(frame.input(), from);
    say::read(rt, answer.map(|(c, next)| (Words(c), next)))
}

pub fn type_write(rt: &impl Print, mut frame: Fields, room: &mut [u8]) -> io::Result<()> {
    let room = frame.room(room);
    let c = column(&mut frame);
    let answer = column_write::write_column(c, frame.input(), room);
    say::wrote(rt, answer, room)
}
