//! What comes of a deed.
use deed_words::Reply;
use serial_pool::DrawPlan;
use site_rules::Subject;
use site_stores::Change;

/// What comes of a deed: its reply, what it changes in the stores, and what the pool draws for it. It tells what the deed
/// is about, so that nobody looks the name up again.
#[derive(Drop)]
pub struct Decided {
    /// The reply. A rule that the deed breaks is a reply too.
    pub reply: Reply,
    /// Where the unit and the batch are that the deed is about.
    pub subject: Subject,
    /// What it changes in the stores: nothing, where it breaks a rule.
    pub change: Change,
    /// What the pool draws for it: something for an accepted draw alone.
    pub draw: Option<DrawPlan>,
}
