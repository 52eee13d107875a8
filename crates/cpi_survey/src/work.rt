//! The work list of a month.
ghost use Rattle.std.specs.Prelude.{◌≡◌, IfOk};
ghost use Rattle.cpi_survey.specs.Work.{row_of_assignment, work, work_row, work_rows};

use crate::assignment::Assigned;
use crate::own::Own;
use crate::public::Public;
use crate::refusal::Refusal;
use crate::work_row::WorkRow;
use cpi_codes::Month;
use cpi_plan::Item;
use cpi_rows::Rows;
use std::alloc::{AllocError, Global};

impl Own {
    /// The work list of a month: one row for each assignment that is active in it, by slot. It is the refusal
    /// `UnknownMonth` if the calendar has no row of the month. An assignment whose item isn't in the public part has no
    /// row. For n assignments, q quotes and i items it takes O(n log (q + i) + q) steps. An `Err` says that memory was
    /// refused.
    pub fn work(
        &self,
        alloc: Global,
        public: &Public,
        month: Month,
    ) -> Result<Result<Rows<WorkRow>, Refusal>, AllocError>
        ensures { IfOk result (λ answer. answer ≡ work month public.now self.now) }
    {
        match public.calendar_row(month) {
            None => Ok(Err(Refusal::UnknownMonth)),
            Some(_) => {
                let rows = self.work_rows(alloc, public, month)?;
                Ok(Ok(Rows::of(rows)))
            }
        }
    }

    // The rows of the assignments that are active in the month, by slot.
    fn work_rows(
        &self,
        alloc: Global,
        public: &Public,
        month: Month,
    ) -> Result<Vec<WorkRow>, AllocError>
        ensures { IfOk result (λ rows. rows.items ≡ work_rows month public.now self.now) }
    {
        let mut rows = Vec::new(alloc);
        for assigned in self.assignments() {
            if let Some(row) = self.row_of(alloc, public, month, assigned)? {
                rows.push(row)?;
            }
        }
        Ok(rows)
    }

    // The row of an assignment that is active in the month, if its item is known.
    fn row_of(
        &self,
        alloc: Global,
        public: &Public,
        month: Month,
        assigned: &Assigned,
    ) -> Result<Option<WorkRow>, AllocError>
        ensures { IfOk result (λ row. row ≡ row_of_assignment month public.now self.now assigned.now) }
    {
        if !assigned.assignment.is_active(month) {
            return Ok(None);
        }
        match public.item(assigned.assignment.item) {
            None => Ok(None),
            Some(item) => Ok(Some(self.work_row(alloc, month, assigned, item)?)),
        }
    }

    // The row of an assignment and its item.
    fn work_row(
        &self,
        alloc: Global,
        month: Month,
        assigned: &Assigned,
        item: &Item,
    ) -> Result<WorkRow, AllocError>
        ensures { IfOk result (λ row. row ≡ work_row month self.now assigned.now item.now) }
    {
        let assignment = assigned.assignment;
        Ok(WorkRow {
            slot: assignment.slot,
            outlet: assignment.outlet,
            outlet_name: assigned.outlet_name.copy(alloc)?,
            item: assignment.item,
            text: item.text.copy(alloc)?,
            unit: item.unit.copy(alloc)?,
            last: self.last_price(&assignment, month),
            quote: self.quote(assignment.slot, month).copied(),
        })
    }
}
