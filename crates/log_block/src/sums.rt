// The two sums that seal a block.
ghost use Rattle.std.specs.Prelude.{◌≡◌, ◌<◌, ◌++◌, length, take};
ghost use Rattle.word.specs.Word.{two_bytes};
ghost use Rattle.log_block.specs.Sums.{seal_answer, sealed, sealed_anew, sums_of, with_sums};

use crate::faults::BlockFault;
use crate::parts::Block;

// The sum of some bytes, and the sum of the values that it has on its way.
#[derive(Clone, Copy, PartialEq, Eq)]
struct Sums {
    low: u16,
    high: u16,
}

impl Sums {
    // Both sums of some bytes. The first sum has a value after each byte, and a byte is in the value after it and in all later ones:
    // the second sum holds it that many times. Written so, no byte waits for the sum of those before it, and the compiler adds
    // several at a time.
    #[tactic(auto, using(crate::proofs::Weighing::byte_by_byte))]
    fn of(bytes: &[u8]) -> Sums
        requires { length bytes.now < 65536 }
        ensures { result ≡ sums_of bytes.now }
    {
        let mut low = 0u16;
        let mut high = 0u16;
        let mut weight = bytes.len() as u16;
        // a loop and no fold: that the weight is above 0 is known at each turn of a loop alone
        for byte in bytes {
            let byte = u16::from(*byte);
            low = low.wrapping_add(byte);
            high = high.wrapping_add(weight.wrapping_mul(byte));
            weight -= 1;
        }
        Sums { low, high }
    }

    // Writes the sums into the last four bytes.
    fn seal(self, block: &mut Block)
        ensures { block.new ≡ take 508 block.old ++ (two_bytes self.low ++ two_bytes self.high) }
    {
        block[508..].copy_from_slice(&self.to_bytes());
    }

    // The four bytes that say the sums.
    fn to_bytes(self) -> [u8; 4]
        ensures { result ≡ two_bytes self.low ++ two_bytes self.high }
    {
        let [low0, low1] = self.low.to_be_bytes();
        let [high0, high1] = self.high.to_be_bytes();
        [low0, low1, high0, high1]
    }
}

// Whether the last four bytes say the sums of the others.
pub(crate) fn is_sealed(block: &Block) -> bool
    ensures { result ≡ sealed block.now }
{
    let said = Sums {
        low: u16::from_be_bytes([block[508], block[509]]),
        high: u16::from_be_bytes([block[510], block[511]]),
    };
    said == Sums::of(&block[..508])
}

// Writes the sums of the first 508 bytes into the last four.
pub(crate) fn seal_block(block: &mut Block)
    ensures { block.new ≡ with_sums (take 508 block.old) }
{
    Sums::of(&block[..508]).seal(block);
}

// Writes the sums of the first 508 bytes into the last four: for whoever fills a block with records of their own.
pub fn seal(block: &mut [u8]) -> Result<(), BlockFault>
    ensures value { result ≡ seal_answer block.old }
    ensures after { block.new ≡ sealed_anew block.old }
{
    let block = block.as_mut_array().ok_or(BlockFault::WrongLength)?;
    seal_block(block);
    Ok(())
}
