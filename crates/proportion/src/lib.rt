// P as each form of a data run has it: read in hundredths of a per cent, and written.
#![tactic(auto)]

ghost use Rattle.std.specs.Prelude.{◌≡◌, ◌+◌, ◌*◌, ◌≤◌, length};
ghost use Rattle.layout.specs.Layout.{mpb2, width_of, proportion_of, run_length, proportion_at, proportion_bytes, greatest_proportion};
ghost use Rattle.layout.specs.Meaning.{meant};
ghost use Rattle.lent.specs.Lent.{placed};

use layout::Form;

// The P at a place of a table, in hundredths of a per cent: one of MPB1 is in per cents, one of MPB2 in hundredths.
pub fn proportion_at(run: &[u8], form: Form, offset: usize, place: usize) -> u16
    requires form_in_bounds { offset + width_of (proportion_of (meant form)) * place + width_of (proportion_of (meant form)) ≤ length run.now }
    requires run_len_bound { length run.now ≤ run_length mpb2 }
    ensures { result ≡ proportion_at (meant form) run.now offset place }
{
    match form {
        Form::Mpb1 => 100 * u16::from(run[offset + place]),
        Form::Mpb2 => little_endian::read_u16(run, offset + 2 * place) as u16,
    }
}

// Puts a P into an output, as a form writes it.
pub fn put_proportion(form: Form, hundredths: u16, out: &mut [u8], at: usize)
    requires { (hundredths ≤ greatest_proportion) × (at + width_of (proportion_of (meant form)) ≤ length out.old) }
    ensures { out.new ≡ placed out.old at (proportion_bytes (meant form) hundredths) }
{
    match form {
        Form::Mpb1 => lent::put(&[(hundredths / 100) as u8], out, at),
        Form::Mpb2 => lent::put(&little_endian::u16_bytes(u32::from(hundredths)), out, at),
    }
}
