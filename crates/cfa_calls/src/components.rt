// Components of a graph, by Tarjan's algorithm with its recursion on a stack. Nothing is proved of what it finds: the
// levels are tested before they are used, and without them a search is only longer.
ghost use Rattle.std.specs.Prelude.{◌≡◌, ◌<◌, ◌≤◌, IfOk, IsTrue, length, slice_index_or, slice_set};
ghost use Rattle.std.specs.List.{All};
ghost use Rattle.cfa_calls.specs.Reaching.{Falls, IsLevelled};

use crate::reaching::Graph;
use cfa_base::NoMemory;
use std::alloc::Global;

/// A level for each node, which never rises along an edge: nodes that lead to each other have one level, and, where
/// the components were found, no others share it.
pub(crate) fn levels(alloc: Global, graph: &Graph) -> Result<Vec<usize>, NoMemory>
    ensures { IfOk result (λ levels. IsLevelled graph.now levels.items) }
{
    let found = components(alloc, graph)?;
    if found.len() == graph.len() && falls(graph, &found) {
        return Ok(found);
    }
    Ok(vec![in alloc; 0; graph.len()]?)
}

// Whether no edge leads to a higher level.
fn falls(graph: &Graph, levels: &[usize]) -> bool
    requires { length levels.now ≡ length graph.now }
    ensures { IsTrue result → Falls graph.now levels.now }
{
    for node in 0..graph.len() {
        if !is_below(graph.row(node), levels[node], levels) {
            return false;
        }
    }
    true
}

// Whether no node of a row has a higher level.
fn is_below(row: &[usize], level: usize, levels: &[usize]) -> bool
    requires { All (λ next. next < length levels.now) row.now }
    ensures { IsTrue result → All (λ next. slice_index_or levels.now next 0 ≤ level) row.now }
{
    for next in row {
        if levels[*next] > level {
            return false;
        }
    }
    true
}

#[derive(Clone, Copy, Debug)]
enum Stage {
    New,
    // On the stack of nodes without a component. The lowest number is that of the first node known to be led to.
    Open { number: usize, lowest: usize },
    Closed { component: usize },
}

// How far the edges of a node on the path are followed.
#[derive(Clone, Copy, Debug)]
struct Step {
    node: usize,
    edges: usize,
}

#[derive(Drop)]
struct Walk {
    stages: Vec<Stage>,
    open: Vec<usize>,
    path: Vec<Step>,
    entered: usize,
    components: usize,
}

// The number of each node's component, in the order in which the components are left, so that an edge between two
// leads to the lower number.
fn components(alloc: Global, graph: &Graph) -> Result<Vec<usize>, NoMemory> {
    let mut walk = Walk {
        stages: vec![in alloc; Stage::New; graph.len()]?,
        open: Vec::new(alloc),
        path: Vec::new(alloc),
        entered: 0,
        components: 0,
    };
    for root in 0..graph.len() {
        walk.go_from(graph, root)?;
    }
    let mut found = Vec::with_capacity(alloc, graph.len())?;
    for stage in &walk.stages {
        found.push(match stage {
            Stage::Closed { component } => *component,
            _ => 0,
        })?;
    }
    Ok(found)
}

impl Walk {
    // Visits all that a node leads to and that is new.
    fn go_from(&mut self, graph: &Graph, root: usize) -> Result<(), NoMemory> {
        if let Stage::New = self.stage(root) {
            self.enter(root)?;
        }
        for _turn in 0..usize::MAX {
            let Some(step) = self.path.pop() else {
                break;
            };
            self.advance(graph, step)?;
        }
        Ok(())
    }

    fn stage(&self, node: usize) -> Stage {
        match self.stages.get(node) {
            Some(stage) => *stage,
            None => Stage::New,
        }
    }

    fn enter(&mut self, node: usize) -> Result<(), NoMemory> {
        let number = self.entered;
        self.entered = self.entered.saturating_add(1);
        set_stage(
            &mut self.stages,
            node,
            Stage::Open {
                number,
                lowest: number,
            },
        );
        self.open.push(node)?;
        self.path.push(Step { node, edges: 0 })?;
        Ok(())
    }

    // Follows the next edge of a node, or leaves the node.
    fn advance(&mut self, graph: &Graph, step: Step) -> Result<(), NoMemory> {
        let node = step.node;
        match graph.edge(node, step.edges) {
            Some(next) => {
                let edges = step.edges.saturating_add(1);
                self.path.push(Step { node, edges })?;
                self.look_at(node, next)
            }
            None => {
                self.leave(node);
                Ok(())
            }
        }
    }

    fn look_at(&mut self, node: usize, next: usize) -> Result<(), NoMemory> {
        match self.stage(next) {
            Stage::New => self.enter(next)?,
            Stage::Open { number, .. } => self.lower(node, number),
            Stage::Closed { .. } => {}
        }
        Ok(())
    }

    fn lower(&mut self, node: usize, led_to: usize) {
        if let Stage::Open { number, lowest } = self.stage(node) {
            let lowest = lowest.min(led_to);
            set_stage(&mut self.stages, node, Stage::Open { number, lowest });
        }
    }

    // Closes the component that a node was the first of, or tells the node before it on the path what it leads to.
    fn leave(&mut self, node: usize) {
        let Stage::Open { number, lowest } = self.stage(node) else {
            return;
        };
        if lowest == number {
            self.close_down_to(node);
        } else if let Some(before) = self.path.last() {
            let before = before.node;
            self.lower(before, lowest);
        }
    }

    fn close_down_to(&mut self, first: usize) {
        let component = self.components;
        self.components = self.components.saturating_add(1);
        while let Some(node) = self.open.pop() {
            set_stage(&mut self.stages, node, Stage::Closed { component });
            if node == first {
                break;
            }
        }
    }
}

// Sets the stage of a node, if it is one.
fn set_stage(stages: &mut [Stage], node: usize, stage: Stage)
    ensures { stages.new ≡ slice_set stages.old node stage }
{
    if node < stages.len() {
        stages[node] = stage;
    }
}
