//! A pen for a reading of which nothing is written.

ghost use Rattle.std.specs.Prelude.{None};
ghost use Rattle.cqlp_text.specs.Written.{bare};

use cqlp_grammar::SinkFault;
use cqlp_text::{Gap, Pen};

/// Takes texts, and keeps none.
#[derive(Drop)]
pub(crate) struct Silent;

#[tactic(auto, using(crate::proofs::Silence::takes_all))]
impl Pen for Silent {
    ghost state = { λ _. bare None 0 };

    fn put(&mut self, _bytes: &[u8]) -> Result<(), SinkFault> {
        Ok(())
    }

    fn put_number(&mut self, _number: u64) -> Result<(), SinkFault> {
        Ok(())
    }

    fn takes_item(&mut self, _gap: Gap, _number: u64, _ends_line: bool) -> bool {
        false
    }

    fn takes_text(&mut self, _gap: Gap, _text: &str, _ends_line: bool) -> bool {
        false
    }

    fn put_digits(&mut self, _count: usize, _number: u64) -> Result<(), SinkFault> {
        Ok(())
    }
}
