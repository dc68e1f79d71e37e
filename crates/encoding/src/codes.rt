// The encodings of a share, level by level: a range encoding at box 1, a point encoding at box 2.
ghost use Rattle.std.specs.Prelude.{◌≡◌, ◌<◌};
ghost use Rattle.field.specs.Width.{modulus};
ghost use Rattle.encoding.specs.Codes.{bit_of, range_code, level_code};

use field::Width;

pub fn bit(v: u32, k: u32) -> u32
    requires { k < 32 }
    ensures { result ≡ bit_of v k }
{
    (v >> k) & 1
}

// The choice is made by a product, so that the time does not tell the bit.
fn range_code(n: Width, x: u32, level: u32) -> u32
    requires { (x < modulus n.bits) × (level < n.bits) }
    ensures { result ≡ range_code n.bits x level }
{
    let code = (x >> level) + 1;
    code + bit(x, level) * (n.modulus() - code)
}

// The box's code of its share v at a level.
pub fn level_code(n: Width, side: u32, v: u32, level: u32) -> u32
    requires { (v < modulus n.bits) × (level < n.bits) }
    ensures { result ≡ level_code n.bits side v level }
{
    if side == 1 {
        range_code(n, n.modulus() - 1 - v, level)
    } else {
        v >> level
    }
}
