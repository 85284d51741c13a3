// What a descriptor is made of, by its type byte: the forms of which most columns are. Who has a form
// reads or writes the descriptor by numbers of a constant width; who has none goes the long way.

#![tactic(auto)]

ghost use Rattle.column_form.specs.Form.{IsForm};

// What follows the type byte.
#[derive(Clone, Copy)]
pub enum Form {
    // Nothing.
    Alone,
    // A length of one byte.
    Byte,
    // The same, then precision and scale.
    Digits,
    // A length of two bytes.
    Short,
    // The same, then a collation.
    Text,
    // Something else, or the byte is no type's.
    Other,
}

// The form of a byte below 64.
fn low_form(b: u8) -> Form
    ensures { IsForm result b }
{
    match b {
        0x1F => Form::Alone,
        0x30 => Form::Alone,
        0x32 => Form::Alone,
        0x34 => Form::Alone,
        0x38 => Form::Alone,
        0x3A => Form::Alone,
        0x3B => Form::Alone,
        0x3C => Form::Alone,
        0x3D => Form::Alone,
        0x3E => Form::Alone,
        0x24 => Form::Byte,
        0x26 => Form::Byte,
        0x29 => Form::Byte,
        0x2A => Form::Byte,
        0x2B => Form::Byte,
        _ => Form::Other,
    }
}

// Of one from 64 up to 127.
fn middle_form(b: u8) -> Form
    ensures { IsForm result b }
{
    match b {
        0x7A => Form::Alone,
        0x7F => Form::Alone,
        0x68 => Form::Byte,
        0x6D => Form::Byte,
        0x6E => Form::Byte,
        0x6F => Form::Byte,
        0x6A => Form::Digits,
        0x6C => Form::Digits,
        _ => Form::Other,
    }
}

// Of one from 128 on.
fn high_form(b: u8) -> Form
    ensures { IsForm result b }
{
    match b {
        0xA5 => Form::Short,
        0xAD => Form::Short,
        0xA7 => Form::Text,
        0xAF => Form::Text,
        0xE7 => Form::Text,
        0xEF => Form::Text,
        _ => Form::Other,
    }
}

// The form of a type byte. Only a form is promised: any byte may be told as none. Three short matches
// are inlined where one long one is not.
pub fn form_of(b: u8) -> Form
    ensures { IsForm result b }
{
    if b < 64 {
        return low_form(b);
    }
    if b < 128 {
        return middle_form(b);
    }
    high_form(b)
}
