// Says why numbers have no certificate, in the words of the command line.
ghost use Rattle.std.specs.Prelude.{Err};
ghost use Rattle.body_fields.specs.declared.fields.BodyFault.TheVariants.{Field};
ghost use Rattle.command_results.specs.Handing.{HandsOut};
ghost use Rattle.command_results.specs.declared.stop.Stop.TheVariants.{BadCase, OverLimit};

use body_fields::{BodyFault, FieldName};
use command_results::{Stop, hand_out_stop};

/// Hands out that a field is refused.
pub fn refuse(name: FieldName, text: &mut [u8], size: &mut usize) -> u8
    ensures { HandsOut (Err (BadCase (Field name))) result size.new text.old text.new }
{
    let fault = BodyFault::Field { name };
    hand_out_stop(&Stop::BadCase { fault }, text, size)
}

/// Hands out that the search takes more steps than this limit.
pub fn refuse_limit(limit: u32, text: &mut [u8], size: &mut usize) -> u8
    ensures { HandsOut (Err (OverLimit limit)) result size.new text.old text.new }
{
    hand_out_stop(&Stop::OverLimit { limit }, text, size)
}
