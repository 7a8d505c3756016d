ghost use Rattle.std.specs.Prelude.{◌≡◌, ◌≤◌};
ghost use Rattle.trace_tools.specs.Written.{end_bytes};

use esc_base::Tick;
use trace_text::Line;

/// The END line of a trace.
pub fn end_text(t: Tick) -> Line
    requires { t.0 ≤ 1073741824 }
    ensures { result.bytes ≡ end_bytes t.0 }
{
    let mut line = Line::new();
    line.push_number(t.0 as u32);
    line.push_bytes(b" END\n");
    line
}
