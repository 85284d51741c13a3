// The copying pass, for the crates of this repository. It cannot fail: the row was judged and the room
// is there. Bytes that are in normal form already lengthen a run; a run is copied in one piece where
// other bytes must be put behind it.
ghost use Rattle.std.specs.Prelude.{◌≡◌, [], ◌∷◌, ◌++◌, ◌+◌, ◌-◌, ◌≤◌, ◌<◌, length, take, drop, Some};
ghost use Rattle.std.proofs.lemmas.List.Edits.{sets};
ghost use Rattle.lists.specs.Put.{put_at};
ghost use Rattle.format.specs.Answer.{took, map_read};
ghost use Rattle.format.specs.Plp.{read_plp, plp_bytes};
ghost use Rattle.value_kind.specs.Told.{family_told};
ghost use Rattle.plp_join.specs.Told.{counted};
ghost use Rattle.value_form.specs.Told.{normal_in};
ghost use Rattle.value_normal.specs.Runs.{held, run_on, RunFits, RunGrows};

use crate::Run;
use content_size::content;
use value_form::Form;
use value_kind::family::Family;

// The run is copied. It hands back the place behind it.
pub fn close_run(out: &mut [u8], s: &[u8], run: Run) -> usize
    requires { (run.from ≤ run.at) × (run.at ≤ length s.now) × (run.put + (run.at - run.from) ≤ length out.old) }
    ensures { (result ≡ run.put + (run.at - run.from)) × (out.new ≡ put_at out.old run.put (held s.now run)) }
{
    let from = run.from;
    let at = run.at;
    let put = run.put;
    wire::inner::paste(s, from, at, out, put);
    put + (at - from)
}

// A bit whose byte, at `at`, is above 1.
fn bit_in(out: &mut [u8], s: &[u8], run: Run, at: usize) -> Run
    requires { (run.from ≤ at) × (at < length s.now) × (run.put + (at - run.from) + 1 ≤ length out.old) }
    ensures { (result ≡ run_on (at + 1) (run.put + (at - run.from) + 1))
        × (out.new ≡ sets out.old run.put (take (at - run.from) (drop run.from s.now) ++ (1 ∷ []))) }
{
    let from = run.from;
    let put = run.put;
    let o = close_run(out, s, Run { from, at, put });
    wire::inner::put_byte(out, o, 1);
    Run {
        from: at + 1,
        at: at + 1,
        put: o + 1,
    }
}

// PLP content of so many bytes, `end` bytes long in the input, put behind the run.
fn content_in(out: &mut [u8], s: &[u8], run: Run, text: bool, count: usize, end: usize) -> Run
    requires { (map_read counted (read_plp text (drop run.at s.now)) ≡ took (Some count) end)
        × RunFits s.now (length out.old) run (map_read plp_bytes (read_plp text (drop run.at s.now))) }
    ensures { RunGrows s.now out.old run (map_read plp_bytes (read_plp text (drop run.at s.now))) out.new result }
{
    let at = run.at;
    let o = close_run(out, s, run);
    let e = o + content::formed(true, count as u32);
    plp_put::inner::put_plp(&s[at..], text, &mut out[o..e]);
    let next = at + end;
    Run {
        from: next,
        at: next,
        put: e,
    }
}

// A PLP value: null as it is, content behind the run. It was judged before and is not refused.
fn plp_in(out: &mut [u8], s: &[u8], run: Run, text: bool) -> Run
    requires { RunFits s.now (length out.old) run (map_read plp_bytes (read_plp text (drop run.at s.now))) }
    ensures { RunGrows s.now out.old run (map_read plp_bytes (read_plp text (drop run.at s.now))) out.new result }
{
    let at = run.at;
    match plp_join::judge_plp(&s[at..], text) {
        Ok(None) => Run {
            from: run.from,
            at: at + 8,
            put: run.put,
        },
        Ok(Some((count, end))) => content_in(out, s, run, text, count, end),
        Err(_) => run,
    }
}

// One value more.
pub fn normal_in(out: &mut [u8], f: Family, declared: u32, s: &[u8], run: Run) -> Run
    requires { RunFits s.now (length out.old) run (normal_in declared (family_told f) (drop run.at s.now)) }
    ensures { RunGrows s.now out.old run (normal_in declared (family_told f) (drop run.at s.now)) out.new result }
{
    let at = run.at;
    let form = value_form::inner::form(f, declared, &s[at..]);
    match form {
        Form::Same(n) => Run {
            from: run.from,
            at: at + n,
            put: run.put,
        },
        Form::Bit(start) => bit_in(out, s, run, at + start),
        Form::Plp(text) => plp_in(out, s, run, text),
    }
}
