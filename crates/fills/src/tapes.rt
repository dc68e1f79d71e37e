// Which tapes the fillings are tried on.
ghost use Rattle.std.specs.Prelude.{◌≡◌, length};
ghost use Rattle.tape.specs.Layout.{tape_length};
ghost use Rattle.tape.specs.Order.{Readable};
ghost use Rattle.deals.specs.Deals.{dealt_tape};

use field::Width;

const SEED: u32 = 20051;

const PAIR: u32 = 7;

const NUMBER: u32 = 3;

// Both boxes' tapes.
pub fn deal(n: Width, t1: &mut [u32], t2: &mut [u32])
    requires { (length t1.old ≡ tape_length n.bits) × (length t2.old ≡ tape_length n.bits) }
    ensures t1_after { (t1.new ≡ dealt_tape 20051 n.bits 7 1 3) × (t2.new ≡ dealt_tape 20051 n.bits 7 2 3) }
    ensures readable { Readable n.bits t1.new × Readable n.bits t2.new }
{
    deals::write(SEED, n, PAIR, NUMBER, t1, t2);
}
