// Vertex numbers and edge numbers count separate things. They wrap untrusted words: the range is tested, not assumed.
ghost use Rattle.std.specs.Prelude.{◌≡◌};
ghost use Rattle.graphs.specs.Nodes.{is_vertex, is_link};

#[derive(Clone, Copy)]
pub struct Vertex(pub u16);

// 0 is null.
#[derive(Clone, Copy)]
pub struct Edge(pub u16);

// Whether v is one of the vertices 1 to n.
pub fn is_vertex(n: u16, v: Vertex) -> bool
    ensures { result ≡ is_vertex n v.0 }
{
    let x = v.0;
    x != 0 && x <= n
}

// Whether e is null or one of the edges n + 1 to n + m.
pub fn is_link(n: u16, m: u16, e: Edge) -> bool
    ensures { result ≡ is_link n m e.0 }
{
    let x = e.0;
    x == 0 || x > n && x - n <= m
}
