// A step of a job. Where a step reaches a cell, u is the register that names it.
#![tactic(auto)]

ghost use Rattle.std.specs.Prelude.{◌≡◌, ◌≤◌, length};
ghost use Rattle.book.specs.declared.Step.TheVariants.{Add, New, Read, Write, Relabel, Exec, Choose};
ghost use Rattle.book.specs.Records.{byte_at};
ghost use Rattle.book.specs.Book.{step_at};
ghost use Rattle.acts.specs.declared.Act.TheVariants.{Give};
ghost use Rattle.acts.specs.Views.{stored_of, register_in, nearby, give_sort, lower_sort, store_sort, create_sort, launch_sort};
ghost use Rattle.turns.specs.Turns.{target_in, Takes, Gives, Changes, Launches};

use acts::{Act, Near, Stored, StoredJob};
use book::{kind, value_kind};
use labels::Label;

// A step gives register r this value, with the job's source h.
pub fn given(r: u8, kind: u8, number: u32, h: Label) -> Act
    ensures { result ≡ Give r (record { number = number; kind = kind; source = h }) }
{
    Act::Give(
        r,
        Stored {
            number,
            kind,
            source: h,
        },
    )
}

pub fn add(j: &StoredJob, near: Near, r: u8, a: u8, b: u8) -> Act
    ensures { Takes give_sort (nearby near) (Add r a b) j.now.label j.now.source j.now.registers result }
{
    let u = j.register(a);
    let v = j.register(b);
    if u.kind != value_kind::PLAIN || v.kind != value_kind::PLAIN {
        return Act::Blocked;
    }
    match u.number.checked_add(v.number) {
        Some(sum) => {
            let source = u.source.lower_of(v.source);
            given(r, value_kind::PLAIN, sum, source.lower_of(j.source))
        }
        None => Act::Blocked, // the sum passes the top
    }
}

fn new(j: &StoredJob, near: Near, r: u8, i: u8, a: u8) -> Act
    ensures { Takes create_sort (nearby near) (New r i a) j.now.label j.now.source j.now.registers result }
{
    let v = j.register(a);
    j.actor().make(near, r, i, v)
}

pub fn read(j: &StoredJob, near: Near, u: Stored, r: u8, w: u8) -> Act
    requires { stored_of u ≡ register_in j.now.source j.now.registers w }
    ensures { Takes give_sort (nearby near) (Read r w) j.now.label j.now.source j.now.registers result }
{
    if u.kind == value_kind::CELL && (u.number as usize) < near.cells {
        let content = near.cell.content();
        return Act::Give(r, content.acted(j.source));
    }
    Act::Blocked
}

fn write(j: &StoredJob, near: Near, u: Stored, w: u8, a: u8) -> Act
    requires { stored_of u ≡ register_in j.now.source j.now.registers w }
    ensures { Takes store_sort (nearby near) (Write w a) j.now.label j.now.source j.now.registers result }
{
    // One that is blocked reads no value.
    if u.kind == value_kind::CELL && near.is_open(j.label, u.number) {
        let v = j.register(a);
        return j.actor().write(near, u.number, v);
    }
    Act::Blocked
}

fn relabel(j: &StoredJob, near: Near, u: Stored, w: u8, o: Label) -> Act
    requires { stored_of u ≡ register_in j.now.source j.now.registers w }
    ensures { Takes store_sort (nearby near) (Relabel w o) j.now.label j.now.source j.now.registers result }
{
    if u.kind != value_kind::CELL {
        return Act::Blocked;
    }
    j.actor().relabel(near, u.number, o)
}

fn exec(j: &StoredJob, near: Near, u: Stored, w: u8) -> Act
    requires { stored_of u ≡ register_in j.now.source j.now.registers w }
    ensures { Takes launch_sort (nearby near) (Exec w) j.now.label j.now.source j.now.registers result }
{
    if u.kind != value_kind::CELL {
        return Act::Blocked;
    }
    j.actor().exec(near, u.number)
}

fn choose(j: &StoredJob, near: Near, r: u8, a: u8, b: u8) -> Act
    ensures { Takes launch_sort (nearby near) (Choose r a b) j.now.label j.now.source j.now.registers result }
{
    let v = j.register(r);
    if v.kind != value_kind::PLAIN {
        return Act::Blocked; // nothing to choose by
    }
    let zero = v.number == 0;
    if zero {
        return j.actor().start(near, b as u32);
    }
    j.actor().start(near, a as u32)
}

// The register that names the cell which the step at an offset reaches; a plain 0 where the step reaches none.
pub fn target_of(s: &[u8], o: usize, j: &StoredJob) -> Stored
    requires { (o ≤ length s.now) × (64 ≤ byte_at s.now o) }
    ensures { stored_of result ≡ target_in (step_at s.now o) j.now.source j.now.registers }
{
    let k = records::byte(s, o);
    if k == kind::READ {
        return j.register(records::byte(s, o + 2));
    }
    if k < kind::WRITE {
        return Stored::zero_with(j.source);
    }
    if k < kind::LOWER {
        return j.register(records::byte(s, o + 1)); // write, relabel
    }
    if k == kind::EXEC {
        return j.register(records::byte(s, o + 1));
    }
    Stored::zero_with(j.source)
}

// The step at an offset, where it gives a register a value: put, name, code, add, read.
pub fn give(s: &[u8], o: usize, j: &StoredJob, near: Near, u: Stored) -> Act
    requires { Gives (byte_at s.now o) × (o ≤ length s.now) × (stored_of u ≡ target_in (step_at s.now o) j.now.source j.now.registers) }
    ensures { Takes give_sort (nearby near) (step_at s.now o) j.now.label j.now.source j.now.registers result }
{
    let k = records::byte(s, o);
    let r = records::byte(s, o + 1);
    if k == kind::PUT {
        return given(r, value_kind::PLAIN, records::number(s, o + 2), j.source);
    }
    let y = records::byte(s, o + 2);
    if k == kind::NAME {
        return given(r, value_kind::CELL, y as u32, j.source);
    }
    if k == kind::CODE {
        return given(r, value_kind::CODE, y as u32, j.source);
    }
    if k == kind::ADD {
        return add(j, near, r, y, records::byte(s, o + 3));
    }
    read(j, near, u, r, y)
}

// The same where it is new.
pub fn create(s: &[u8], o: usize, j: &StoredJob, near: Near) -> Act
    requires { (byte_at s.now o ≡ 68) × (o ≤ length s.now) }
    ensures { Takes create_sort (nearby near) (step_at s.now o) j.now.label j.now.source j.now.registers result }
{
    let r = records::byte(s, o + 1);
    let i = records::byte(s, o + 2);
    let a = records::byte(s, o + 3);
    new(j, near, r, i, a)
}

// Where it changes a cell: write, relabel.
pub fn change(s: &[u8], o: usize, j: &StoredJob, near: Near, u: Stored) -> Act
    requires { Changes (byte_at s.now o) × (o ≤ length s.now) × (stored_of u ≡ target_in (step_at s.now o) j.now.source j.now.registers) }
    ensures { Takes store_sort (nearby near) (step_at s.now o) j.now.label j.now.source j.now.registers result }
{
    let writes = records::byte(s, o) == kind::WRITE;
    let w = records::byte(s, o + 1);
    let y = records::byte(s, o + 2);
    if writes {
        return write(j, near, u, w, y);
    }
    relabel(j, near, u, w, Label(y))
}

// Where it lowers the label, and appends it to the history.
pub fn lower(s: &[u8], o: usize, j: &StoredJob, near: Near) -> Act
    requires { (byte_at s.now o ≡ 72) × (o ≤ length s.now) }
    ensures { Takes lower_sort (nearby near) (step_at s.now o) j.now.label j.now.source j.now.registers result }
{
    let q = Label(records::byte(s, o + 1));
    if j.label.reaches(q) {
        return Act::Lower(q, j.source.lower_of(q));
    }
    Act::Blocked
}

// Where it starts a job: start, exec, choose.
pub fn launch(s: &[u8], o: usize, j: &StoredJob, near: Near, u: Stored) -> Act
    requires { Launches (byte_at s.now o) × (o ≤ length s.now) × (stored_of u ≡ target_in (step_at s.now o) j.now.source j.now.registers) }
    ensures { Takes launch_sort (nearby near) (step_at s.now o) j.now.label j.now.source j.now.registers result }
{
    let kind = records::byte(s, o);
    let starts = kind == kind::START;
    let x = records::byte(s, o + 1);
    if starts {
        return j.actor().start(near, x as u32);
    }
    if kind == kind::EXEC {
        return exec(j, near, u, x);
    }
    let a = records::byte(s, o + 2);
    let b = records::byte(s, o + 3);
    choose(j, near, x, a, b)
}
