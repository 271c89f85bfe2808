// The records of a run: what it starts from, and saved as bytes into the lent tables.
#![tactic(auto)]

mod opening;

ghost use Rattle.std.specs.Prelude.{◌≡◌, ◌≤◌, ◌<◌, length, take};
ghost use Rattle.tables.specs.Bytes.{value_bytes, cell_bytes, job_bytes, stored_record, trusted_record, job_record_of, saved_cells};
ghost use Rattle.tables.specs.Asked.{cleared, Narrow, Saved};

use acts::{Stored, StoredCell, StoredJob};
use labels::Trust;
pub use opening::{open_cells, start_of};

// Zeros from index at on.
pub fn clear_from(dst: &mut [u8], at: usize)
    requires { at ≤ length dst.old }
    ensures { dst.new ≡ cleared dst.old at }
{
    dst[at..].fill(0);
}

// Kind, number, source.
fn value_bytes(v: Stored) -> [u8; 6]
    ensures { result ≡ value_bytes (stored_record v) }
{
    let [a, b, c, d] = v.number.to_le_bytes();
    [v.shown_kind(), a, b, c, d, v.source.0]
}

// Shape, trust, label, value.
fn cell_bytes(c: StoredCell, trust: Trust) -> [u8; StoredCell::BYTES]
    ensures { result ≡ cell_bytes (trusted_record trust c) }
{
    let content = c.content();
    let b = value_bytes(content);
    [
        c.shape, trust.0, c.label.0, b[0], b[1], b[2], b[3], b[4], b[5],
    ]
}

// Block, position, label, source, registers.
fn job_bytes(j: StoredJob) -> [u8; StoredJob::BYTES]
    requires { Narrow j }
    ensures { result ≡ job_bytes (job_record_of j) }
{
    let mut out = [0u8; StoredJob::BYTES];
    out[0] = j.block as u8;
    out[1] = j.position as u8;
    out[2] = j.label.0;
    out[3] = j.source.0;
    for (i, v) in j.registers.iter().enumerate() {
        records::copy_in(&mut out, 4 + i * 6, &value_bytes(*v));
    }
    out
}

// The first n cells as a table; their trusts are those of the table of shapes.
pub fn save_cells(
    cells: [StoredCell; StoredJob::TABLE_SIZE],
    n: usize,
    shapes: &[u8],
    out: &mut [u8],
)
    requires { (n ≤ 64) × (length out.old ≡ 576) }
    ensures { out.new ≡ saved_cells shapes.now (take n cells) }
{
    for (i, c) in cells[..n].iter().enumerate() {
        let shape = decode::shape_in(shapes, c.shape);
        let b = cell_bytes(*c, shape.trust);
        records::copy_in(out, i * StoredCell::BYTES, &b);
    }
    clear_from(out, n * StoredCell::BYTES);
}

// A job as entry i of a table. The run saves its jobs one by one: handed over together they would be copied.
pub fn save_job(j: StoredJob, i: usize, out: &mut [u8])
    requires { Narrow j × (i < 64) × (length out.old ≡ 3328) }
    ensures { Saved j i out.old out.new }
{
    records::copy_in(out, i * StoredJob::BYTES, &job_bytes(j));
}
