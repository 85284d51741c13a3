// A capture that is refused: the refusal's number, document 01's words for it, and how far it got.
use column_type::Column;
use std::io;
use wire::Refusal;

fn reason(e: Refusal) -> &'static str {
    match e {
        Refusal::Missing => "a needed byte lies behind the end of the input",
        Refusal::Unknown => "unknown type byte",
        Refusal::Kind => "the kind of the value does not fit the type",
        Refusal::Room => "the whole output is longer than the room lent",
        Refusal::Long => "content is longer than allowed",
        Refusal::Rule => "the descriptor or the column list breaks a rule",
        Refusal::NotCarried => "the type is not carried",
        Refusal::Sequence => "a length or chunk sequence that the type forbids",
        Refusal::NotText => "a surrogate is alone",
    }
}

pub fn say_refusal(rt: &impl Print, e: Refusal) -> io::Result<()> {
    println!(rt; "refused: {}, {}", e.number(), reason(e))
}

// The two bytes of the count are missing.
pub fn say_count(rt: &impl Print, e: Refusal) -> io::Result<()> {
    say_refusal(rt, e)?;
    println!(rt; "the number of columns, two bytes, begins at byte 0")
}

// A descriptor was refused, or the number of columns.
pub fn say_descriptor(
    rt: &impl Print,
    e: Refusal,
    i: usize,
    at: usize,
    count: usize,
) -> io::Result<()> {
    say_refusal(rt, e)?;
    if 1024 < count {
        return println!(rt;
            "the capture says it has {count} columns, and at most 1024 are carried"
        );
    }
    println!(rt;
        "the descriptor of column {} begins at byte {at}",
        i.saturating_add(1)
    )
}

// A value was refused.
pub fn say_value(rt: &impl Print, i: usize, c: Column, at: usize) -> io::Result<()> {
    let (number, name) = (i.saturating_add(1), show_type::type_name(c));
    println!(rt; "the value of column {number}, {name}, begins at byte {at}")
}
