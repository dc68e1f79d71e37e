// Memory for jobs of up to eight comparisons at any width: room for the longest joined tapes, work and message. A shorter job uses the first words of each.
ghost use Rattle.std.specs.Prelude.{◌≡◌, ◌≤◌, length, take};
ghost use Rattle.protocol.specs.Sizes.{most_jobs, tape_for};
ghost use Rattle.exchange.specs.Rooms.{blank_works, blank_messages};

use field::Width;

// Zeros for the longest tapes.
pub fn blank_tapes() -> [u32; 72424]
    ensures { length result ≡ 72424 }
{
    [0; 72424]
}

// The first words of such room, as many as so many tapes of this width have.
#[tactic(auto, using(tape::proofs::Sizes::small))]
pub fn tapes_room(n: Width, count: u32, room: &mut [u32; 72424]) -> &mut [u32]
    requires { count ≤ most_jobs }
    ensures first { result.now ≡ take (tape_for n.bits count) room.old }
    ensures long { length result.now ≡ tape_for n.bits count }
{
    let len = count as usize * tape::tape_words(n);
    &mut room[..len]
}

// Zeros to work in.
pub fn blank_works() -> [u32; 3488]
    ensures { (length result ≡ 3488) × (result ≡ blank_works) }
{
    [0; 3488]
}

// Zeros for the longest message.
pub fn blank_messages() -> [u32; 23112]
    ensures { (length result ≡ 23112) × (result ≡ blank_messages) }
{
    [0; 23112]
}
