//! The keepers of a loop, as evaluations see them.
use crate::acting::run_step;
use crate::ground::Ground;
use kj_base::{Form, Link, NoMemory, Outcome, StepId};
use promise_commands::Steps;
use promise_names::Names;
use promise_nodes::Nodes;
use promise_walks::{Given, Land, free_part, put_bare};

impl<N: Nodes + Drop, M: Names + Drop> Land for Ground<N, M> {
    ghost use Rattle.promise_walks.specs.Walks.{Both};

    ghost stands = { λ g. Both (N.stands g.nodes) (M.stands g.names) };

    ghost slots = { λ g. N.slots g.nodes };

    ghost next = { λ g. N.next g.nodes };

    ghost is_taken = { λ g. N.is_taken g.nodes };

    ghost roots = { λ g. M.roots g.names };

    ghost is_plain = { λ g. N.is_plain g.nodes };

    ghost over = { λ g. M.over g.names };

    ghost rule = { N.rule };

    fn slots(&self) -> u32 {
        self.keepers.nodes.slots()
    }

    fn form(&self, node: Link) -> Option<&Form> {
        self.keepers.nodes.form(node)
    }

    fn put_bare(&mut self, node: Link, form: Form) {
        put_bare(&mut self.keepers.nodes, node, form);
    }

    fn free_part<S: Steps>(&mut self, tree: Link, steps: &mut S) {
        free_part(
            &mut self.keepers.nodes,
            &mut self.keepers.names,
            &mut self.keepers.frames,
            &mut self.keepers.search,
            tree,
            steps,
        );
    }

    fn step<S: Steps>(
        &mut self,
        under_chain: bool,
        node: Link,
        step: StepId,
        input: Outcome,
        steps: &mut S,
    ) -> Result<Given, NoMemory> {
        run_step(
            &mut self.keepers.nodes,
            &mut self.keepers.names,
            &mut self.keepers.frames,
            &mut self.keepers.search,
            under_chain,
            node,
            step,
            input,
            steps,
        )
    }

    ghost slots_are = { λ g w stands. N.slots_are g.nodes w stands.0 };
}
