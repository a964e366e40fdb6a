// Reading from an input into a room of a fixed size.
#![tactic(auto)]

ghost use Rattle.std.specs.Prelude.{◌≡◌, ◌≤◌, length, take};
ghost use Rattle.std.specs.Io.KnownBytes.{Consumes};

use std::io::Read;

// Reads until the room is full, the input ends or a read fails, and answers how many bytes it put in front of the room.
pub fn read_full<I: Read>(input: &mut I, room: &mut [u8]) -> usize
    ensures within { result ≤ length room.new }
    ensures in_front { result ≡ length (take result room.new) }
    ensures bytes { Consumes (I.remaining input.old) (I.remaining input.new) (take result room.new) }
{
    let mut done = 0;
    while done < room.len() {
        match input.read(&mut room[done..]) {
            Ok(0) | Err(_) => return done,
            Ok(n) => done += n,
        }
    }
    done
}
