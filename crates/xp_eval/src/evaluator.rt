// A world that evaluates by this crate.
use crate::eval;
use std::alloc::Global;
use xt_questions::{
    Answer, Context, EvalFault, Evaluate, Focus, Given, Question, Supplies, Wanted, World,
};
use xt_syntax::Expr;
use xt_text::Memory;
use xt_tree::Value;

/// A world that evaluates by this crate. It asks the world that it is made of.
#[derive(Drop)]
pub struct Eval<W> {
    pub world: W,
}

impl<W: World> World for Eval<W> {
    ghost state = { λ e. W.state e.world };

    ghost name = { λ e. W.name e.world };

    fn ask(&mut self, question: &Question) -> Result<Answer, Memory> {
        self.world.ask(question)
    }

    fn see(&mut self, wanted: &Wanted, depth: u64, given: &Given) -> Result<(), Memory> {
        self.world.see(wanted, depth, given)
    }
}

impl<W: World> Evaluate for Eval<W> {
    fn value(
        &mut self,
        alloc: Global,
        expr: &Expr,
        focus: Focus,
        context: &Context,
        supplies: &Supplies,
    ) -> Result<Value, EvalFault> {
        eval(alloc, expr, focus, context, supplies, &mut self.world)
    }
}
