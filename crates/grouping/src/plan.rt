// The group plan, a decomposition in its type.
ghost use Rattle.std.specs.Prelude.{◌≡◌, true};
ghost use Rattle.routes.specs.Groups.{decomposed};

use crate::draft::Draft;

// A draft whose groups are an edge decomposition of its routes, so that none remains.
#[derive(Drop)]
pub struct GroupPlan {
    pub(crate) draft: Draft,
    ghost decomposed: { decomposed draft.routes.items draft.groups.items ≡ true },
}
