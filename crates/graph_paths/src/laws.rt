//! Laws of the edges of a graph. A caller takes one by calling its function, which does nothing.

ghost use Rattle.graph_paths.specs.Paths.{EdgePathsAreRoutes, OneRouteOnePath};

/// The lists of edges from the beginning of a thread to its end, each from where the one before leads, are those of the routes
/// of its code from the entry to the outermost return, with few enough backward jumps, and with an answer for each instruction
/// on them that asks whether a thread is alive.
pub fn edge_paths_are_routes()
    ensures { EdgePathsAreRoutes }
{}

/// Each such route with its answers has one list of edges, and each list of edges is that of one route alone.
pub fn one_route_one_path()
    ensures { OneRouteOnePath }
{}
