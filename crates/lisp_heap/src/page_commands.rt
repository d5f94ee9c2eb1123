//! The command that shows a page: `page`.

ghost use Rattle.std.specs.Prelude.{◌≡◌, ◌<◌, IfOk, length};
ghost use Rattle.heap_terms.specs.declared.commands.Command.TheVariants as commands;
ghost use Rattle.heap_terms.specs.Heap.{NamedHeap};
ghost use Rattle.heap_terms.specs.PageViews.{page_view};
ghost use Rattle.lisp_heap.specs.Plan.{IsPlan};
ghost use Rattle.lisp_heap.specs.View.{heap_of};

use crate::plan::{Change, Plan};
use crate::world::World;
use heap_terms::{Answer, Memory, PageView, Refusal};
use page_views::view_page;

impl World {
    /// `page`. Its answer, a list, takes memory.
    #[cold]
    #[inline(never)]
    pub(crate) fn viewed(&self, t: usize, p: u32) -> Result<Plan, Memory>
        requires { t < length self.now.program.threads }
        ensures { IfOk result (λ plan. IsPlan (heap_of self.now) t (commands.ShowPage p) plan.answer plan.change) }
    {
        if p >= self.pages.len() {
            return Ok(Plan::refused(Refusal::OutOfRange));
        }
        let view = self.page(p)?;
        Ok(Plan {
            answer: Answer::Page(view),
            change: Change::Nothing,
        })
    }

    /// What is shown of a page.
    fn page(&self, p: u32) -> Result<PageView, Memory>
        ghost a: { NamedHeap }
        requires heap { a ≡ heap_of self.now }
        requires inside { p < length self.now.parts.pages }
        ensures { IfOk result (λ view. view ≡ page_view a p) }
    {
        view_page(self.alloc, &self.space, &self.pages, &self.labels, p)
    }
}
