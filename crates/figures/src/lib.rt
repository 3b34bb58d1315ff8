// The figures of a site's records, on which the search works.
#![tactic(auto)]

ghost use Rattle.std.specs.Prelude.{◌≡◌};
ghost use Rattle.plantext.specs.PlanText.{site_of};
ghost use Rattle.search.specs.Posed.{Posed};
ghost use Rattle.figures.specs.Numbers.{parents_of, portions_of};

use records::Accepted;
use search::Figures;
use site::MOST_TIME;

// The figures of accepted records, whose parents and sum of portions are known: those of the site
// that they describe. A flow's descent is the depth of its sink less that of its path's top. The
// shortest required period is the longest there is without flows.
pub fn figures_of(site: Accepted, parents: [u8; 64], total: u32) -> Figures
    requires { (parents ≡ parents_of site.site.now.clusters site.site.now.cluster_count) × (total ≡ portions_of site.site.now.clusters site.site.now.cluster_count) }
    ensures { Posed (site_of site.entry.site.now) result }
{
    let cluster_count = site.clusters().len();
    let mut depths = [0; 64];
    let mut lineages = [0; 64];
    tree::climb(
        &parents[..cluster_count],
        &mut depths[..cluster_count],
        &mut lineages[..cluster_count],
    );
    let flows = site.flows();
    let mut sources = [0; 128];
    let mut sinks = [0; 128];
    let mut deadlines = [0; 128];
    let mut descents = [0; 128];
    let mut shortest = MOST_TIME;
    for (i, flow) in flows.iter().enumerate() {
        let source = usize::from(flow.source);
        let sink = usize::from(flow.sink);
        sources[i] = flow.source as u8;
        sinks[i] = flow.sink as u8;
        deadlines[i] = flow.deadline;
        shortest = shortest.min(flow.period);
        let top = tree::top(&lineages[..cluster_count], source, sink);
        descents[i] = depths[sink] - depths[top];
    }
    Figures {
        cluster_count,
        flow_count: flows.len(),
        shortest,
        total,
        parents,
        depths,
        sources,
        sinks,
        descents,
        deadlines,
    }
}
