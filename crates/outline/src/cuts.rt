//! Where what is known is cut in two.

use crate::asked::{Left, LeftRule};
use crate::conditions::{cut_of, cut_where_known};
use crate::fault::OutlineError;
use crate::maker::Maker;
use crate::numbers::Rooms;
use crate::parts::Cut;
use crate::spot::{Spot, Which};
use crate::words::Words;

// Where the words of a record begin that hold arguments, in bytes.
const ARGUMENTS: u32 = 16;

impl<'a> Maker<'a> {
    // Where a condition of a rule that may hold is not settled: one of which something is known, or any.
    fn cut_of_rule(&self, known: &Words, own: LeftRule, is_any: bool) -> Option<Cut> {
        let rule = self.rule(own.rule)?;
        let narrow = rule.is_narrow();
        for (place, cond) in rule.conds.iter().enumerate() {
            if own.met >> (place % 32) & 1 == 0 {
                let is_low = own.low >> (place % 32) & 1 == 1;
                let cut = if is_any {
                    cut_of(known, narrow, cond, is_low)
                } else {
                    cut_where_known(known, narrow, cond, is_low)
                };
                if cut.is_some() {
                    return cut;
                }
            }
        }
        None
    }

    // One of which something is known, of the first rule that is left and has such a one.
    fn cut_where_first(&self, known: &Words, left: &Left) -> Option<Cut> {
        for own in &left.rules {
            let cut = self.cut_of_rule(known, *own, false);
            if cut.is_some() {
                return cut;
            }
        }
        None
    }

    // Any condition of the rule of which the fewest are not met: that is the first to hold, or to be out.
    fn cut_where_fewest(&self, known: &Words, left: &Left) -> Option<Cut> {
        let mut fewest = usize::MAX;
        let mut best = None;
        for own in &left.rules {
            let open = self.open_conditions(*own);
            if open < fewest {
                let cut = self.cut_of_rule(known, *own, true);
                if cut.is_some() {
                    fewest = open;
                    best = cut;
                }
            }
        }
        best
    }

    // How many conditions of a rule that may hold are not met.
    fn open_conditions(&self, own: LeftRule) -> usize {
        match self.rule(own.rule) {
            Some(rule) => rule
                .conds
                .len()
                .saturating_sub(own.met.count_ones() as usize),
            None => 0,
        }
    }

    // Where what is known of a spot is cut for the sake of its call's rules.
    fn cut_of_call(&self, spot: &Spot, is_any: bool) -> Result<Option<Cut>, OutlineError> {
        let (Some(left), Some(known)) = (self.left.get(spot.left), self.words.get(spot.arguments))
        else {
            return Err(OutlineError::Unlike);
        };
        if left.holds {
            return Ok(None);
        }
        Ok(if is_any {
            self.cut_where_fewest(known, left)
        } else {
            self.cut_where_first(known, left)
        })
    }

    // Where several calls are cut: at a return with a verdict, or at the load of an argument.
    fn cut_of_calls(
        &self,
        spot: &Spot,
        verdict: Option<u32>,
        rooms: &mut Rooms,
    ) -> Result<Option<Cut>, OutlineError> {
        let (Some(numbers), Some(arguments)) = (
            self.words.get(spot.numbers),
            self.words.get(spot.arguments),
        ) else {
            return Err(OutlineError::Unlike);
        };
        Ok(match verdict {
            Some(verdict) => self.cut_of_several(numbers, arguments, verdict, rooms)?,
            None => self.cut_of_asked(numbers, rooms)?,
        })
    }

    /// Where what is known is cut at a return, if that is needed: until one rule holds or none is left.
    pub(crate) fn cut_at_return(
        &self,
        spot: &Spot,
        verdict: u32,
        rooms: &mut Rooms,
    ) -> Result<Option<Cut>, OutlineError> {
        match spot.which {
            Which::Several => self.cut_of_calls(spot, Some(verdict), rooms),
            Which::Plain => Ok(None),
            Which::Asked(call) if self.is_merged(call) => self.cut_by_all(spot, verdict),
            Which::Asked(_) => self.cut_of_call(spot, true),
        }
    }

    /// Where what is known is cut before another word is loaded: until what is known of the last one is settled.
    pub(crate) fn cut_at_load(
        &self,
        spot: &Spot,
        offset: u32,
        rooms: &mut Rooms,
    ) -> Result<Option<Cut>, OutlineError> {
        match spot.which {
            Which::Several if self.is_early && offset >= ARGUMENTS => {
                self.cut_of_calls(spot, None, rooms)
            }
            Which::Several | Which::Plain => Ok(None),
            Which::Asked(call) if self.is_merged(call) => Ok(None),
            Which::Asked(_) => self.cut_of_call(spot, false),
        }
    }
}
