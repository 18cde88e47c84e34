//! The lines on refusals of each kind.
ghost use Rattle.std.specs.Prelude.{◌≡◌, ◌≢◌, ℕ, IfOk, OnOk, OnErr};
ghost use Rattle.http_listener.specs.Complaints.{after_line, line_due};
ghost use Rattle.http_listener.specs.Kinds.{complaint_of};

use crate::complaint::{Complaint, Line};
use std::alloc::{AllocError, Global};
use std::collections::BTreeMap;

/// What was reported of the refusals of each kind. A kind is the status that they were answered.
#[derive(Drop)]
pub struct Complaints {
    /// By status.
    pub kinds: BTreeMap<u16, Complaint>,
}

impl Complaints {
    /// Nothing was reported.
    pub fn new(alloc: Global) -> Complaints {
        Complaints {
            kinds: BTreeMap::new(alloc),
        }
    }

    /// The line that is due at this moment, in milliseconds, on the refusals with this status,
    /// whose number so far is given.
    ///
    /// # Errors
    ///
    /// Memory for a status that is new was refused. No line counts as reported then.
    pub fn line(&mut self, status: u16, count: u64, now_ms: u64) -> Result<Option<Line>, AllocError>
        ensures line { IfOk result (λ line.
            line ≡ line_due (complaint_of self.old status) count now_ms) }
        ensures noted { IfOk result (λ line. complaint_of self.new status
            ≡ after_line (complaint_of self.old status) line count now_ms) }
        ensures others { (other : ℕ) → other ≢ status
            → complaint_of self.new other ≡ complaint_of self.old other }
        ensures refused { OnErr result
            (complaint_of self.new status ≡ complaint_of self.old status) }
    {
        let before = match self.kinds.get(&status) {
            Some(complaint) => *complaint,
            None => Complaint::new(),
        };
        let line = before.line(count, now_ms);
        let after = before.after(line, count, now_ms);
        self.kinds.insert(status, after)?;
        Ok(line)
    }
}
