// Loads, stores and fetches through the page tables.

ghost use Rattle.std.specs.Prelude.{◌≡◌, cond, is_ok, None};
ghost use Rattle.frames.specs.Questions.{refusal, first_no};
ghost use Rattle.journal.specs.Pictures.{with_words};
ghost use Rattle.paging.specs.Questions.{access_questions, fault_number, translated};
ghost use Rattle.paging.specs.declared.faults.Access.TheVariants.{Store};
ghost use Rattle.guard.specs.Guarding.{with_picture};
ghost use Rattle.guard.specs.Steps.{fault_in, reached, stored, value_in};

use crate::guarded::GuardedMemory;
use memory::traits::Memory;
use paging::faults::{Access, AccessFault};
use paging::walk::translate;

impl<M: Memory> GuardedMemory<M> {
    /// The word that an access reaches from a root, or why it reaches none.
    pub fn word_reached(
        &self,
        root: Option<u8>,
        address: u64,
        access: Access,
    ) -> Result<u64, AccessFault>
        ensures number { refusal fault_number result ≡ first_no (access_questions self.now.picture.words root address access) }
        ensures ends { fault_in result ≡ fault_in (translated self.now.picture.words root address access) }
        ensures word { value_in result ≡ cond (is_ok result) (reached self.now.picture.words root address) None }
    {
        let index = translate(self.framed.memory(), root, address, access)?;
        Ok(self.framed.memory().word(index))
    }

    /// Replaces the word that a store reaches from a root, or says why it reaches none and changes nothing.
    pub fn store_word(
        &mut self,
        root: Option<u8>,
        address: u64,
        value: u64,
    ) -> Result<(), AccessFault>
        ensures number { refusal fault_number result ≡ first_no (access_questions self.old.picture.words root address Store) }
        ensures ends { fault_in result ≡ fault_in (translated self.old.picture.words root address Store) }
        ensures after { let words = self.old.picture.words in
            self.new ≡ with_picture self.old (with_words self.old.picture (cond (is_ok result) (stored words root address value) words)) }
    {
        let index = translate(self.framed.memory(), root, address, Access::Store)?;
        self.framed.write(index, value);
        Ok(())
    }
}
