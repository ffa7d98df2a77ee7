// 01 Reading, rows 8 and 9, on a run of fields: what a tag asks for, or what a request's method asks for.
ghost use Rattle.fields.specs.inner.Gathering.{Ended};
ghost use Rattle.std.specs.Prelude.{◌≡◌, ◌<◌};
ghost use Rattle.message.specs.Checks.{asks, eight, lacks, missing};
ghost use Rattle.message.specs.inner.Facts.{Fits, by_tag, nine_from, of_field, placed};

use crate::refusals::Refusal;
use fields::{Setting, judge};
use rules::{REQUIRED, UNLISTED};
use values::value_at;

// What the fields are asked for by: the tag, or a request's method.
#[derive(Clone, Copy)]
pub enum Run {
    Tag,
    Method,
}

// What the run asks of field n.
fn asks(run: Run, k: Setting, n: usize) -> u8
    requires { (k.tag < 5) × ((k.method < 9) × (n < 27)) }
    ensures { result ≡ asks (by_tag run) k n }
{
    match run {
        Run::Tag => rules::tag_asks(k.tag as usize, n),
        Run::Method => rules::method_asks(k.method as usize, n),
    }
}

// Whether field n is required and not there.
fn is_lacking(run: Run, k: Setting, at: &[usize; 27], n: usize) -> bool
    requires { (k.tag < 5) × ((k.method < 9) × (n < 27)) }
    ensures { result ≡ lacks (by_tag run) k at.now n }
{
    at[n] == 0 && asks(run, k, n) == REQUIRED
}

// Row 8 on a run: the lowest field that is missing refuses.
pub fn check_required(run: Run, k: Setting, at: &[usize; 27]) -> Result<(), Refusal>
    requires { (k.tag < 5) × (k.method < 9) }
    ensures { result ≡ eight (missing (by_tag run) k at.now) }
{
    for n in 1..27 {
        if is_lacking(run, k, at, n) {
            return Err(Refusal::Missing(n));
        }
    }
    Ok(())
}

// What row 9 says of field n, from 4 on: that it breaks its rule, if it is listed and there and does.
fn judge_field(
    s: &[u8],
    run: Run,
    k: Setting,
    at: &[usize; 27],
    end: &[usize; 27],
    n: usize,
) -> Result<(), usize>
    requires { (k.tag < 5) × ((k.method < 9) × ((3 < n) × ((n < 27) × Ended s.now at.now end.now))) }
    ensures { result ≡ of_field s.now (by_tag run) k at.now n }
{
    let v = at[n];
    if v == 0 {
        return Ok(());
    }
    if asks(run, k, n) == UNLISTED {
        return Ok(());
    }
    let e = end[n];
    judge(k, n, value_at(s, v, e))
}

// What a rule says of the value at v, as a refusal: its place is the value's first byte, or inside it, so the sum stays in bounds.
pub fn placed<T>(said: Result<T, usize>, v: usize) -> Result<T, Refusal>
    requires { Fits v said }
    ensures { result ≡ placed v said }
{
    match said {
        Ok(told) => Ok(told),
        Err(p) => Err(Refusal::Rule(v + p)),
    }
}

// Row 9 on a run that asks for none of the fields 1 to 3: the lowest that breaks its rule refuses.
pub fn check_rules(
    s: &[u8],
    run: Run,
    k: Setting,
    at: &[usize; 27],
    end: &[usize; 27],
) -> Result<(), Refusal>
    requires { (k.tag < 5) × ((k.method < 9) × (Ended s.now at.now end.now × (nine_from s.now (by_tag run) k at.now 1 ≡ nine_from s.now (by_tag run) k at.now 4))) }
    ensures { result ≡ nine_from s.now (by_tag run) k at.now 1 }
{
    for n in 4..27 {
        placed(judge_field(s, run, k, at, end, n), at[n])?;
    }
    Ok(())
}
