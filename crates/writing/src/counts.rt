// Whether the blocks' step counts add up to the step rows.
ghost use Rattle.std.specs.Prelude.{◌≡◌, eqb};
ghost use Rattle.rows.specs.Rows.{block_rows_in, total};

// The counts of the block rows add up to so many. No sum is formed: it might not fit.
pub fn agree(blocks: &[u8], steps: usize) -> bool
    ensures { result ≡ eqb (total (block_rows_in blocks.now)) steps }
{
    let mut left = steps;
    for i in 0..blocks.len() / rows::BLOCK_ROW {
        let count = records::number(blocks, i * rows::BLOCK_ROW + 1) as usize;
        if left < count {
            return false;
        }
        left -= count;
    }
    left == 0
}
