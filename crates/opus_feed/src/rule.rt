//! The rule that bytes break which end in a header.
ghost use Rattle.std.specs.Prelude.{◌≡◌};
ghost use Rattle.opus_feed.specs.Rules.{opening_rule};

use crate::framing::Framing;
use crate::head::Head;
use crate::stage::Stage;
use opus_packet::Rule;

/// The rule that bytes break which end at this stage of a header.
pub(crate) fn opening_rule(framing: Framing, stage: Stage, head: &Head) -> Rule
    ensures { result ≡ opening_rule framing stage head.now }
{
    match framing {
        Framing::SelfDelimited => Rule::Cut,
        Framing::Whole => match stage {
            Stage::Toc => Rule::R1,
            _ => head.part_rule(),
        },
    }
}
