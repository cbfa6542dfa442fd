// What a floor asks its book.
ghost use Rattle.std.specs.Prelude.{◌≡◌, ◌≤◌, MatchResult, vec_len};
ghost use Rattle.refusals.specs.declared.Refusal.TheVariants.{NotSettled};
ghost use Rattle.order.specs.Plain.{full, last_of};
ghost use Rattle.book.specs.declared.action.Action.TheVariants.{Settle as Settling};
ghost use Rattle.book.specs.Stations.{fits_both};
ghost use Rattle.book.specs.Shown.{shown, IsRow};

use crate::action::Action;
use crate::book::Book;
use crate::ends::Ends;
use crate::kinds::Row;
use refusals::Refusal;

impl Book {
    // Whether settled and pending handovers make 1,000.
    pub(crate) fn is_full(&self) -> bool
        ensures { result ≡ full (shown self.now) }
    {
        self.rows.len() + self.pending as usize >= 1000
    }

    // Whether the offer between these ends is pending here: whether its settlement fits both.
    pub(crate) fn is_pending(&self, ends: Ends) -> bool
        ensures { result ≡ fits_both self.now.stations.list Settling ends }
    {
        ends.giver < 32 && ends.taker < 32 && self.stations.fit(Action::Settle, ends)
    }

    // The row of a settled handover.
    pub(crate) fn row(&self, handover: u16) -> Result<&Row, Refusal>
        ensures { MatchResult result (λ r. IsRow self.now handover r.now) (λ e. (e ≡ NotSettled) × (vec_len self.now.rows ≤ handover)) }
    {
        // A test of the number: `get` and `ok_or` cost a question a quarter more instructions.
        let i = handover as usize;
        if i >= self.rows.len() {
            return Err(Refusal::NotSettled);
        }
        Ok(&self.rows[i])
    }

    // The number of the latest row with the station, or none.
    pub(crate) fn last_of(&self, station: u8) -> Option<u16>
        ensures { result ≡ last_of (shown self.now).entries station }
    {
        let i = self.rows.iter().rposition(|row| row.ends.have(station))?;
        Some(i as u16)
    }
}
