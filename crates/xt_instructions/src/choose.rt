// xsl:choose (XSLT 1.0, section 9.2).
ghost use Rattle.std.specs.Prelude.{◌≡◌, map, drop, length, IfOk, if◌then◌else◌};
ghost use Rattle.spec_stylesheet.specs.Instruction as made;
ghost use Rattle.spec_meaning.specs.Question as question;
ghost use Rattle.spec_run.specs.Plan.{Plan};
ghost use Rattle.spec_run.specs.Content.{planned_branches};
ghost use Rattle.xt_syntax.specs.InstrView.{branch_of};
ghost use Rattle.spec_node.specs.declared.node_ref.NodeRef.{NodeRef};
ghost use Rattle.xt_questions.specs.Runs.{itself};
ghost use Rattle.xt_progress.specs.View.{going_of};
ghost use Rattle.xt_frames.specs.View.{here_of, inside};
ghost use Rattle.xt_frames.specs.Left.{left_in, Does, Steps, Found, IsStill, hand};

use std::alloc::Global;
use std::rc::Rc;
use xt_frames::{Branches, Came, Frame, Next, Run, Standing, go_into, lack, share_content, truth};
use xt_questions::World;
use xt_syntax::Branch;
use xt_text::Memory;

/// Goes into the first branch from this one on whose test is true or that has none, and writes nothing where
/// there is none. Where a test lacks a global, what is left are the branches from that one on.
pub fn choose_from<W: World>(
    alloc: Global,
    run: &mut Run,
    branches: Branches,
    world: &mut W,
) -> Result<Next, Memory>
    ensures does { IfOk result (Steps (W.state world.old).truth (planned_branches (made.branches (map branch_of (drop branches.next branches.branches.value.items))) (here_of branches.here) (left_in run.old)) (length run.old.frames.items) run.old run.new) }
    ensures truth { (W.state world.new).truth ≡ (W.state world.old).truth }
    ensures name { W.name world.new ≡ W.name world.old }
{
    let Branches {
        branches: shared,
        next: first,
        here,
    } = branches;
    let list = shared.as_slice();
    let mut next = first;
    while next < list.len() {
        let branch = &list[next];
        let Ok(came) = is_taken(alloc, run, branch, &here, world) else {
            drop(here);
            return Err(Memory);
        };
        match came {
            Came::Is(yes) => {
                if yes {
                    return go_into_branch(alloc, run, branch, here);
                }
                next += 1;
            }
            Came::Halts(why) => {
                drop(here);
                return Ok(Next::Halt(why));
            }
            Came::Lacks(name) => {
                let Ok(branches) = share_branches(&shared) else {
                    drop(here);
                    return Err(Memory);
                };
                let depth = here.depth;
                let left = Frame::Branches(Branches {
                    branches,
                    next,
                    here,
                });
                return lack(alloc, run, left, name, depth, &branch.site.place);
            }
        }
    }
    drop(here);
    Ok(Next::Went)
}

/// The same branches, shared.
pub(crate) fn share_branches(branches: &Rc<Vec<Branch>>) -> Result<Rc<Vec<Branch>>, Memory>
    ensures { IfOk result (λ b. b.value ≡ branches.now.value) }
{
    Ok(branches.clone()?)
}

/// Whether the branch has no test, or one that is true.
fn is_taken<W: World>(
    alloc: Global,
    run: &mut Run,
    branch: &Branch,
    here: &Standing,
    world: &mut W,
) -> Result<Came<bool>, Memory>
    ensures found { IfOk result (λ came. let b = branch_of branch.now in let h = here_of here.now in (more : made.Branches) → (after : Plan NodeRef) → Found itself (W.state world.old).truth (hand run.old) run.old.room (planned_branches (made.branch b.site b.test b.content more) h after) (λ yes. if yes then inside b.site.place b.content h after else planned_branches more h after) h.depth b.site.place (going_of run.old.going) (going_of run.new.going) came) }
    ensures still { IsStill run.old run.new }
    ensures truth { (W.state world.new).truth ≡ (W.state world.old).truth }
    ensures name { W.name world.new ≡ W.name world.old }
{
    match &branch.test {
        None => Ok(Came::Is(true)),
        Some(test) => truth(alloc, run, test, &branch.site, here, world),
    }
}

/// Goes into the content of a branch.
fn go_into_branch(
    alloc: Global,
    run: &mut Run,
    branch: &Branch,
    here: Standing,
) -> Result<Next, Memory>
    ensures { IfOk result (λ next. (ask : question.Question NodeRef → question.Answer NodeRef) → let b = branch_of branch.now in Does ask (inside b.site.place b.content (here_of here) (left_in run.old)) (length run.old.frames.items) run.old run.new next) }
{
    let Ok(inner) = share_content(&branch.content) else {
        drop(here);
        return Err(Memory);
    };
    go_into(alloc, run, &branch.site.place, inner, here)
}
