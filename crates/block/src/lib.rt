// One block of a file, its number in 2 bytes, 506 data bytes and its check in 4; and the check of blocks one after the other.
#![tactic(auto)]

ghost use Rattle.std.specs.Prelude.{◌≡◌, ◌+◌, ◌*◌, ◌%◌, ◌<◌, ◌≤◌, length};
ghost use Rattle.outcome.specs.Outcome.{finding};
ghost use Rattle.lent.specs.Lent.{placed};
ghost use Rattle.block.specs.Block.{check_of, block_check, block_of};
ghost use Rattle.block.specs.Blocks.{blocks_check};

use outcome::{Reason, Refusal};

// The check that a block ought to have: its first 127 words, each times its place 1 to 127.
#[tactic(auto, using(crate::proofs::WordSums::word_by_word), unfolding(crate::specs::Block::check_of))]
fn check_of(block: &[u8]) -> u32
    requires { 508 ≤ length block.now }
    ensures { result ≡ check_of block.now }
{
    let mut sum: u32 = 0;
    for i in 0..127 {
        let word = little_endian::read_u32(block, 4 * i);
        sum = sum.wrapping_add(word.wrapping_mul(i as u32 + 1));
    }
    sum
}

// Whether a block has its check, and then whether its number is its place.
#[tactic(auto, unfolding(crate::specs::Block::block_check))]
fn check_block(block: &[u8], place: usize) -> Result<(), Refusal>
    requires { length block.now ≡ 512 }
    ensures { finding result ≡ block_check place block.now }
{
    if little_endian::read_u32(block, 508) != check_of(block) {
        return Err(Reason::BlockCheck.at(place as u64, 0));
    }
    if little_endian::read_u16(block, 0) as usize != place {
        return Err(Reason::BlockNumber.at(place as u64, 0));
    }
    Ok(())
}

// The blocks of a file, ascending from 0.
#[tactic(auto, using(crate::proofs::Joined::check_turn), unfolding(crate::specs::Blocks::blocks_check))]
pub fn check_blocks(file: &[u8], n: usize) -> Result<(), Refusal>
    requires { length file.now ≡ 512 * n }
    ensures { finding result ≡ blocks_check 0 n file.now }
{
    for b in 0..n {
        let from = 512 * b;
        check_block(&file[from..from + 512], b)?;
    }
    Ok(())
}

// Puts the block of 506 data bytes into an output: its number, the data, and the check of what then stands there.
#[tactic(auto, using(crate::proofs::Turns::built))]
pub fn put_block(part: &[u8], place: usize, out: &mut [u8], at: usize)
    requires { (length part.now ≡ 506) × (place < 65536) × (at + 512 ≤ length out.old) }
    ensures { out.new ≡ placed out.old at (block_of place part.now) }
{
    let number = little_endian::u16_bytes(place as u32);
    lent::put(&number, out, at);
    lent::put(part, out, at + 2);
    let check = little_endian::u32_bytes(check_of(&out[at..at + 508]));
    lent::put(&check, out, at + 508);
}
