// What an offer, its settlement or its withdrawal does to the state of one station.
ghost use Rattle.std.specs.Prelude.{◌≡◌};
ghost use Rattle.book.specs.Action.{fits_state, acted};

use order::kinds::Mark;

// What is done with an offer.
#[derive(Clone, Copy, PartialEq, Eq, Debug)]
pub enum Action {
    Offer,
    Settle,
    Withdraw,
}

// A station's end of an offer, with the station at the other end: the giver's, to the taker, or
// the taker's, from the giver.
#[derive(Clone, Copy, PartialEq, Eq, Debug)]
pub enum Side {
    To(u8),
    From(u8),
}

// Changes the state in place where the action fits it, and says whether it did. The form is the
// project's rule: one match on the state and the action together, which changes the state.
pub(crate) fn act(state: &mut Mark, action: Action, side: Side) -> bool
    ensures told { result ≡ fits_state state.old action side }
    ensures state { state.new ≡ acted state.old action side }
{
    match (*state, action, side) {
        (Mark::Free, Action::Offer, Side::To(taker)) => {
            *state = Mark::Giving(taker);
            true
        }
        (Mark::Free, Action::Offer, Side::From(giver)) => {
            *state = Mark::Taking(giver);
            true
        }
        (Mark::Giving(partner), Action::Settle | Action::Withdraw, Side::To(taker))
            if partner == taker => {
            *state = Mark::Free;
            true
        }
        (Mark::Taking(partner), Action::Settle | Action::Withdraw, Side::From(giver))
            if partner == giver => {
            *state = Mark::Free;
            true
        }
        _ => false,
    }
}
