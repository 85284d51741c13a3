// The lists of a frame: a count in two bytes, then that many columns or values. For a call that holds
// them, a list is read into an array of 1,024 places; a count above them is handed on as it is, and the
// call refuses it. For one that is lent them, it is read into as many places as there are.

#![tactic(auto)]

ghost use Rattle.std.specs.Prelude.{◌≡◌, ◌≤◌, ◌*◌, length, drop, min};
ghost use Rattle.std.specs.Int.{from_le_bytes, w16};
ghost use Rattle.replay_say.specs.Fields.{field};

use column_type::Column;
use replay_say::fields::Fields;
use value_kind::Value;

// Places for a list that is lent: one more than a row may have, so that the call itself refuses a
// longer one.
pub const PLACES: usize = 1025;

// The places for a list that is held: as many as a row may have.
pub const HELD_PLACES: usize = 1024;

// How many bytes a column has, and a value.
const COLUMN: usize = 66;

const VALUE: usize = 17;

// The places for so many records: all where there are not as many.
fn front<'a, T>(places: &'a mut [T], count: usize) -> &'a mut [T]
    ensures { length result.now ≡ min count (length places.old) }
{
    let n = count.min(places.len());
    &mut places[..n]
}

// The records of a list, as many as there are places for.
fn records<T: Copy, F: Fn(&mut Fields) -> T>(mut list: Fields, read: F, places: &mut [T])
    requires { F.IsAlwaysCallable read }
{
    for place in places {
        *place = read(&mut list);
    }
}

// The columns of the list that a frame has next, as far as there are places: how many it says it has.
pub fn held_columns(frame: &mut Fields, places: &mut [Column; HELD_PLACES]) -> usize
    ensures count { result ≡ from_le_bytes w16 (field 2 frame.old.rest.now) }
    ensures behind { frame.new.rest.now ≡ drop (result * 66) (drop 2 frame.old.rest.now) }
{
    let count = usize::from(frame.two());
    let list = frame.part(count * COLUMN);
    records(list, replay_type::column, front(places, count));
    count
}

// The values of the list that a frame has next, likewise.
pub fn held_values(frame: &mut Fields, places: &mut [Value; HELD_PLACES]) -> usize
    ensures count { result ≡ from_le_bytes w16 (field 2 frame.old.rest.now) }
    ensures behind { frame.new.rest.now ≡ drop (result * 17) (drop 2 frame.old.rest.now) }
{
    let given = usize::from(frame.two());
    let list = frame.part(given * VALUE);
    records(list, replay_value::value, front(places, given));
    given
}

// The front of some places, with the records of a list.
fn lent<'a, T: Copy, F: Fn(&mut Fields) -> T>(
    list: Fields,
    stated: usize,
    read: F,
    places: &'a mut [T],
) -> &'a [T]
    requires { F.IsAlwaysCallable read }
    ensures { length result.now ≡ min stated (length places.old) }
{
    let places = front(places, stated);
    records(list, read, places);
    places
}

// The columns of the list that a frame has next: as many as there are places for.
pub fn columns<'a>(frame: &mut Fields, places: &'a mut [Column]) -> &'a [Column]
    ensures within { length result.now ≤ length places.old }
    ensures count { length result.now ≡ min (from_le_bytes w16 (field 2 frame.old.rest.now)) (length places.old) }
    ensures behind { frame.new.rest.now ≡ drop (from_le_bytes w16 (field 2 frame.old.rest.now) * 66) (drop 2 frame.old.rest.now) }
{
    let stated = usize::from(frame.two());
    let list = frame.part(stated * COLUMN);
    lent(list, stated, replay_type::column, places)
}

// The values of the list that a frame has next, likewise.
pub fn values<'a>(frame: &mut Fields, places: &'a mut [Value]) -> &'a [Value]
    ensures within { length result.now ≤ length places.old }
    ensures count { length result.now ≡ min (from_le_bytes w16 (field 2 frame.old.rest.now)) (length places.old) }
    ensures behind { frame.new.rest.now ≡ drop (from_le_bytes w16 (field 2 frame.old.rest.now) * 17) (drop 2 frame.old.rest.now) }
{
    let stated = usize::from(frame.two());
    let list = frame.part(stated * VALUE);
    lent(list, stated, replay_value::value, places)
}

#[cfg(test)]
mod tests {
    use super::*;
    use column_type::TypeId;
    use value_kind::Scalar;

    // Two columns, and a byte behind them.
    #[test]
    fn columns_as_far_as_places(rt: HostRuntime) {
        let mut frame = [0u8; 135];
        frame[0] = 2;
        frame[2] = 0x38;
        frame[68] = 0x26;
        frame[69] = 4;
        frame[134] = 0xEE;
        let mut places = [column_type::plain(TypeId::Udt, 0); 3];
        let mut fields = Fields::new(&frame);
        let both = columns(&mut fields, &mut places);
        assert!(rt;
            matches!(both, [a, b] if u8::from(a.ty) == 0x38 && u8::from(b.ty) == 0x26 && b.length == 4)
        );
        assert_eq!(rt; fields.byte(), 0xEE);
        let mut place = [column_type::plain(TypeId::Udt, 0)];
        let mut fields = Fields::new(&frame);
        let first = columns(&mut fields, &mut place);
        assert!(rt; matches!(first, [a] if u8::from(a.ty) == 0x38));
        assert_eq!(rt; fields.byte(), 0xEE);
    }

    // Three values, and a byte behind them; in all places, and in two.
    #[test]
    fn values_as_far_as_places(rt: HostRuntime) {
        let mut frame = [0u8; 54];
        frame[0] = 3;
        frame[53] = 0xEE;
        for (i, n) in [(2, 7), (19, 8), (36, 9)] {
            frame[i] = 2;
            frame[i + 1] = n;
        }
        let mut places = [Value::Null; PLACES];
        let mut fields = Fields::new(&frame);
        let all = values(&mut fields, &mut places);
        assert!(rt;
            matches!(
                all,
                [
                    Value::Scalar(Scalar::U8(7)),
                    Value::Scalar(Scalar::U8(8)),
                    Value::Scalar(Scalar::U8(9))
                ]
            )
        );
        assert_eq!(rt; fields.byte(), 0xEE);
        let mut places = [Value::Null; 2];
        let mut fields = Fields::new(&frame);
        let two = values(&mut fields, &mut places);
        assert!(rt;
            matches!(
                two,
                [Value::Scalar(Scalar::U8(7)), Value::Scalar(Scalar::U8(8))]
            )
        );
        assert_eq!(rt; fields.byte(), 0xEE);
    }
}
