// The Newick text of a vertex, from the arrays that hold its tree, written as far as there is room for it. Document 02, §2.
#![tactic(auto)]

ghost use Rattle.std.specs.Prelude.{◌≡◌, ◌∷◌, map, ◌+◌, ◌≤◌, ◌<◌, eqb, length, unwrap_or, IfSome};
ghost use Rattle.std.proofs.lemmas.List.Edits.{sets};
ghost use Rattle.statement.specs.Decimal.{decimal};
ghost use Rattle.statement.specs.NewickText.{led, leaf_text, vertex_text};
ghost use Rattle.newick_digits.specs.Pen.{Fits, Wrote};
ghost use Rattle.newick_vertex.specs.Arrays.{having, Lone, shape_in, lead_at};

use newick_digits::Pen;

// A tree by the arrays that hold it: the homes of its taxa, and the links and weights of the vertices below the root, which is numbered behind them.
#[derive(Clone, Copy)]
pub struct Arrays<'a> {
    pub homes: &'a [usize],
    pub links: &'a [usize],
    pub weights: &'a [u32],
    pub ghost taxa: { length homes.now ≤ 64 },
    pub ghost edges: { length links.now ≤ 125 },
    pub ghost weighed: { length weights.now ≡ length links.now },
}

// A colon and a weight.
fn weigh(w: u32, pen: &mut Pen)
    requires { Fits pen.old (58 ∷ decimal w) }
    ensures { Wrote pen.old pen.new (58 ∷ decimal w) }
{
    pen.put(b':');
    pen.put_number(u64::from(w));
}

// A taxon as a leaf of length 0, behind a byte.
fn leaf(b: u8, taxon: usize, pen: &mut Pen)
    requires { Fits pen.old (b ∷ leaf_text taxon) }
    ensures { Wrote pen.old pen.new (b ∷ leaf_text taxon) }
{
    pen.put(b);
    pen.put_number(taxon as u64);
    weigh(0, pen);
}

// An opening bracket before the first item, and a comma before each other.
fn leading(from: usize, at: usize) -> u8
    ensures { result ≡ lead_at (eqb from at) }
{
    if from == at { b'(' } else { b',' }
}

impl<'a> Arrays<'a> {
    ghost use Rattle.newick_vertex.specs.Held.{held};

    // The taxon that stands for a vertex without brackets: the only one at home there, below the root and without children.
    fn lone(&self, v: usize) -> Option<usize>
        requires { v ≤ length self.now.links.now }
        ensures lone { Lone (held self.now) v (unwrap_or result (length self.now.homes.now)) }
        ensures below { IfSome result (λ i. i < length self.now.homes.now) }
    {
        if v == self.links.len() || self.links[..v].contains(&v) {
            return None;
        }
        let i = self.homes.iter().position(|&home| home == v)?;
        if self.homes[i + 1..].contains(&v) {
            return None;
        }
        Some(i)
    }

    // The taxa at home at a vertex.
    fn taxa(&self, v: usize, pen: &mut Pen)
        requires { Fits pen.old (led 40 (map leaf_text (having self.now.homes.now v 0 (length self.now.homes.now)))) }
        ensures { Wrote pen.old pen.new (led 40 (map leaf_text (having self.now.homes.now v 0 (length self.now.homes.now)))) }
    {
        let mut b = b'(';
        for (i, &home) in self.homes.iter().enumerate() {
            if home == v {
                leaf(b, i, pen);
                b = b',';
            }
        }
    }

    // A vertex without its weight; calls itself for its children, whose numbers are lower.
    pub fn vertex(&self, v: usize, pen: &mut Pen)
        requires v_le_m { v ≤ length self.now.links.now }
        requires v_bound { Fits pen.old (vertex_text (held self.now) v) }
        ensures { Wrote pen.old pen.new (vertex_text (held self.now) v) }
    {
        if let Some(i) = self.lone(v) {
            pen.put_number(i as u64);
            return;
        }
        let from = pen.at;
        self.taxa(v, pen);
        let mut b = leading(from, pen.at);
        for (c, &link) in self.links[..v].iter().enumerate() {
            if link == v {
                pen.put(b);
                self.vertex(c, pen);
                weigh(self.weights[c], pen);
                b = b',';
            }
        }
        pen.put(b')');
    }
}

// A vertex without its weight, from the beginnings of arrays that may be longer: n homes, and m links and weights. What is written starts at a place.
pub fn vertex(
    n: usize,
    m: usize,
    links: &[usize],
    homes: &[usize],
    weights: &[u32],
    v: usize,
    out: &mut [u8],
    at: usize,
) -> usize
    requires v_le_m { (v ≤ m) × (m ≤ length links.now) × (m ≤ length weights.now) × (n ≤ length homes.now) × (n ≤ 64) × (m ≤ 125) }
    requires v_bound { at + length (vertex_text (shape_in n m links.now homes.now weights.now) v) ≤ 1000000 }
    ensures out_after { out.new ≡ sets out.old at (vertex_text (shape_in n m links.now homes.now weights.now) v) }
    ensures value { result ≡ at + length (vertex_text (shape_in n m links.now homes.now weights.now) v) }
{
    let arrays = Arrays {
        homes: &homes[..n],
        links: &links[..m],
        weights: &weights[..m],
    };
    let mut pen = Pen { out, at };
    arrays.vertex(v, &mut pen);
    pen.at
}
