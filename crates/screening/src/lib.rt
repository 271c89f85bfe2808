// Refusals 2 to 5 in one pass: it tells a book that none of them holds of. Which holds first, and where, the stages say.
#![tactic(auto)]

ghost use Rattle.std.specs.Prelude.{◌≡◌, true, ◌<◌, length};
ghost use Rattle.book.specs.Records.{byte_at};
ghost use Rattle.book.specs.Asked.{Fixed, Fit, Clear};

use book::{Tally, group, kind, limit};

// The bytes w of the record at an offset, where refusals 2 and 5 do not hold of it; 0 where one does. a, b and c are the largest values
// of its first three fields.
fn fit(s: &[u8], o: usize, w: u8, a: u8, b: u8, c: u8) -> u8
    requires { (o < length s.now) × Fixed (byte_at s.now o) w a b c }
    ensures { (result ≡ 0 → ⊥) → Fit s.now o result }
{
    if s.len() - o < w as usize {
        return 0;
    }
    if a < records::byte(s, o + 1) {
        return 0;
    }
    if b < records::byte(s, o + 2) {
        return 0;
    }
    if c < records::byte(s, o + 3) {
        return 0;
    }
    w
}

// The same for a record of any kind. Each has an arm of its own, so that the compiler knows its numbers.
fn fit_record(s: &[u8], o: usize) -> u8
    requires { o < length s.now }
    ensures { (result ≡ 0 → ⊥) → Fit s.now o result }
{
    let k = s[o];
    match k {
        kind::C => fit(s, o, 2, limit::C, limit::ANY, limit::ANY),
        kind::PLAIN_SHAPE => fit(s, o, 1, limit::ANY, limit::ANY, limit::ANY),
        kind::CODE_SHAPE => fit(s, o, 2, limit::LABEL, limit::ANY, limit::ANY),
        kind::CELL_SHAPE => fit(s, o, 3, limit::ANY, limit::LABEL, limit::ANY),
        kind::CELL => fit(s, o, 8, limit::ANY, limit::LABEL, limit::VALUE_KIND),
        kind::BLOCK => fit(s, o, 2, limit::LABEL, limit::ANY, limit::ANY),
        kind::PUT => fit(s, o, 6, limit::REGISTER, limit::ANY, limit::ANY),
        kind::NAME => fit(s, o, 3, limit::REGISTER, limit::ANY, limit::ANY),
        kind::CODE => fit(s, o, 3, limit::REGISTER, limit::ANY, limit::ANY),
        kind::ADD => fit(s, o, 4, limit::REGISTER, limit::REGISTER, limit::REGISTER),
        kind::NEW => fit(s, o, 4, limit::REGISTER, limit::ANY, limit::REGISTER),
        kind::READ => fit(s, o, 3, limit::REGISTER, limit::REGISTER, limit::ANY),
        kind::WRITE => fit(s, o, 3, limit::REGISTER, limit::REGISTER, limit::ANY),
        kind::RELABEL => fit(s, o, 3, limit::REGISTER, limit::LABEL, limit::ANY),
        kind::LOWER => fit(s, o, 2, limit::LABEL, limit::ANY, limit::ANY),
        kind::START => fit(s, o, 2, limit::ANY, limit::ANY, limit::ANY),
        kind::EXEC => fit(s, o, 2, limit::REGISTER, limit::ANY, limit::ANY),
        kind::CHOOSE => fit(s, o, 4, limit::REGISTER, limit::ANY, limit::ANY),
        _ => 0,
    }
}

// True only where none of refusals 2 to 5 holds.
pub fn is_clear(s: &[u8]) -> bool
    ensures { result ≡ true → Clear s.now }
{
    let mut o: usize = 0;
    let mut p = group::NONE;
    let mut n = Tally {
        shapes: 0,
        cells: 0,
        blocks: 0,
        steps: 0,
    };
    // Not by the reader: it would look up each span again, which `fit_record` has tested already.
    while o < s.len() {
        let k = s[o];
        let g = records::group_of(k);
        let w = fit_record(s, o);
        if w == 0 {
            return false;
        }
        let ok = faults::in_order(p, g);
        if ok {
            let m = faults::count(n, g);
            if faults::too_many(m) {
                return false;
            }
            p = faults::block_group(g);
            n = m;
            o = o + w as usize;
        } else {
            return false;
        }
    }
    p == group::BLOCKS
}
