// The lines of a script: headings, bytes to lay, and calls, which each program makes by name.
ghost use Rattle.std.specs.Prelude.{◌≡◌, ◌≤◌, length};

use crate::lay::change;
use crate::output::Printed;
use crate::part::field;
use check::same;
use parts::part_end;

// A line that was begun: where it ends, how many bytes are laid from then on, and whether it is a call.
#[derive(Clone, Copy)]
pub struct Begun {
    pub end: usize,
    pub size: usize,
    pub calls: bool,
}

fn is_heading(line: &[u8]) -> bool {
    if line.len() == 0 {
        true
    } else {
        line[0] == b'#'
    }
}

// Writes the line from `at` on, without its end, and lays its items from nothing where it is `lay|items`.
pub fn begin(script: &[u8], at: usize, base: &mut [u8], size: usize) -> Begun
    requires { at ≤ length script.now }
    ensures onward { at ≤ result.end }
    ensures within { result.end ≤ length script.now }
{
    let end = part_end(script, at, b'\n');
    let line = &script[at..end];
    io::write_all(1, line);
    if is_heading(line) {
        return Begun {
            end: end,
            size: size,
            calls: false,
        };
    }
    if same(field(line, 0), b"lay") {
        let laid = change(field(line, 1), &io::large_buffer(), 0, base);
        return Begun {
            end: end,
            size: laid,
            calls: false,
        };
    }
    Begun {
        end: end,
        size: size,
        calls: true,
    }
}

// Runs the lines of a script: each is written, and behind a call what `call` writes, which is given the line, the bytes that are laid and how many of
// them count.
fn run<F: FnMut(&[u8], &[u8], usize) -> Printed>(
    script: &[u8],
    base: &mut [u8],
    mut call: F,
) -> Printed
    requires { F.IsAlwaysCallable call }
{
    let mut size = 0;
    let mut at = 0;
    // no `for`: the place goes on behind the line that ends next, and std's `split` has one more line behind the last end
    while at < script.len() {
        let begun = begin(script, at, base, size);
        size = begun.size;
        if begun.calls {
            call(&script[at..begun.end], base, size)?;
        }
        io::write_all(1, b"\n");
        at = begun.end + 1;
    }
    Ok(())
}

// Runs the script on standard input, which lays bytes into `base`. No answer is an error, as long as `call` prints to an `Output`.
pub fn run_input<F: FnMut(&[u8], &[u8], usize) -> Printed>(base: &mut [u8], call: F)
    requires { F.IsAlwaysCallable call }
    ensures { length base.new ≡ length base.old }
{
    let mut script = io::large_buffer();
    let n = io::read_full(0, &mut script);
    let _ = run(&script[..n], base, call);
}
