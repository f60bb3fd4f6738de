// Functions that are no public calls, exported for measuring alone.
#![tactic(auto)]

ghost use Rattle.std.specs.Prelude.{◌≡◌, ◌^◌, ◌≤◌, ◌<◌};
ghost use Rattle.nodes.specs.Neighbours.{edge};
ghost use Rattle.tables.specs.inner.Says.{Says};
ghost use Rattle.words.specs.inner.Working.{Room};
ghost use Rattle.sums.specs.Sums.{Right};
ghost use Rattle.sums.specs.inner.Summed.{Summed};
ghost use Rattle.panel.specs.Panels.{deep_of, Good, InRange, leaf_count};
ghost use Rattle.panel.specs.Calls.{LeafNumbered, Split, Merge};
ghost use Rattle.leaves.specs.inner.Ways.{OnFirstWay};

use nodes::{LeafNumber, Node};

#[unsafe(no_mangle)]
pub extern "C" fn measure_all_right(bytes: &[u8], deep: usize) -> bool
    requires { Room deep bytes.now }
    ensures { Says (Right deep bytes.now) result }
{
    testing::all_right(bytes, deep)
}

#[unsafe(no_mangle)]
pub extern "C" fn measure_make_sums(bytes: &mut [u8], deep: usize)
    requires { Room deep bytes.old }
    ensures { Summed deep bytes.old bytes.new }
{
    making::make_sums(bytes, deep);
}

#[unsafe(no_mangle)]
pub extern "C" fn measure_edge(node: u32) -> u32
    requires { (2 ≤ node) × (node < 2 ^ 18) }
    ensures { result ≡ edge node }
{
    nodes::edge_of(Node(node))
}

#[unsafe(no_mangle)]
pub extern "C" fn measure_leaf_at(panel: &[u8], deep: usize, number: u32) -> u32
    requires { Good panel.now × (deep ≡ deep_of panel.now) × (number < leaf_count panel.now) }
    ensures { LeafNumbered panel.now number result }
{
    let k = leaves::leaf_at(panel, deep, LeafNumber(number));
    k.0
}

#[unsafe(no_mangle)]
pub extern "C" fn measure_leaf_toward(panel: &[u8], deep: usize, node: u32, number: &mut u32) -> u32
    requires { Good panel.now × (deep ≡ deep_of panel.now) × InRange panel.now node }
    ensures { OnFirstWay panel.now node result number.new }
{
    let s = leaves::leaf_toward(panel, deep, Node(node));
    *number = s.number.0;
    s.node.0
}

#[unsafe(no_mangle)]
pub extern "C" fn measure_split(panel: &mut [u8], deep: usize, node: u32) -> u32
    requires { Good panel.old × (deep ≡ deep_of panel.old) }
    ensures { Split panel.old node result panel.new }
{
    answers::number(changes::split(panel, deep, Node(node)))
}

#[unsafe(no_mangle)]
pub extern "C" fn measure_merge(panel: &mut [u8], deep: usize, node: u32) -> u32
    requires { Good panel.old × (deep ≡ deep_of panel.old) }
    ensures { Merge panel.old node result panel.new }
{
    answers::number(changes::merge(panel, deep, Node(node)))
}
