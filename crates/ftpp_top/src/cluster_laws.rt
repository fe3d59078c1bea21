//! The laws over whole runs, of a cluster: the function here stands for a law, which its clause states, and changes nothing.

ghost use Rattle.ftpp_top.specs.ClusterLaws.{IsLawfulCluster};

use cluster::Cluster;
use cluster::laws::has_run;

/// **Whatever fabrics carried its frames, the laws over whole runs hold of a cluster's journal**: of each cycle so far, of each
/// request, and of each group that posts alike. That its elements are at their parts of this run is the clause of each cycle.
pub fn each_cluster_is_lawful<const N: usize>(cluster: &Cluster<N>)
    ensures { IsLawfulCluster cluster.now }
{
    has_run(cluster);
}
