// The first byte of a character of UTF-8, and the row of table 3-7 of the Unicode Standard that it
// chooses.

#![tactic(auto)]

ghost use Rattle.std.specs.Prelude.{◌≡◌};
ghost use Rattle.format.specs.Text.{between, well_formed};
ghost use Rattle.text_lead.specs.Told.{row, chosen, lead_told, lead_in};

// A row of the table, by its first byte: the first byte's marker bits, the second byte's range, and
// how many bytes of 80 to BF follow the second.
#[derive(Clone, Copy)]
pub struct Row {
    pub marker: u32,
    pub low: u32,
    pub high: u32,
    pub more: u32,
}

// Whether n lies from low up to high.
pub fn within(low: u32, high: u32, n: u32) -> bool
    ensures { result ≡ between low high n }
{
    low <= n && n <= high
}

// A row with these numbers.
fn row_with(marker: u32, low: u32, high: u32, more: u32) -> Option<Row>
    ensures { lead_told result ≡ chosen (row marker low high more) }
{
    Some(Row {
        marker,
        low,
        high,
        more,
    })
}

// The row that a first byte from 80 on chooses.
pub fn row_of(a: u32) -> Option<Row>
    ensures { lead_told result ≡ lead_in well_formed a }
{
    if within(0xC2, 0xDF, a) {
        return row_with(0xC0, 0x80, 0xBF, 0);
    }
    if within(0xE0, 0xE0, a) {
        return row_with(0xE0, 0xA0, 0xBF, 1);
    }
    if within(0xE1, 0xEC, a) {
        return row_with(0xE0, 0x80, 0xBF, 1);
    }
    if within(0xED, 0xED, a) {
        return row_with(0xE0, 0x80, 0x9F, 1);
    }
    if within(0xEE, 0xEF, a) {
        return row_with(0xE0, 0x80, 0xBF, 1);
    }
    if within(0xF0, 0xF0, a) {
        return row_with(0xF0, 0x90, 0xBF, 2);
    }
    if within(0xF1, 0xF3, a) {
        return row_with(0xF0, 0x80, 0xBF, 2);
    }
    if within(0xF4, 0xF4, a) {
        return row_with(0xF0, 0x80, 0x8F, 2);
    }
    None
}
