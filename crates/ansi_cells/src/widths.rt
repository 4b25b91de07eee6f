//! The width of a text.
ghost use Rattle.std.specs.Prelude.{◌≡◌, MatchOption};
ghost use Rattle.ansi_clusters.specs.declared.views.View.{View};
ghost use Rattle.ansi_clusters.specs.Columns.{columns};
ghost use Rattle.ansi_clusters.specs.Views.{seen_text};
ghost use Rattle.ansi_clusters.specs.Walks.{IsWalkIn, IsCounted, IsCountedTo};

use crate::plain_cells::plain_part;
use ansi_clusters::steps::Steps;
use ansi_clusters::views::View;
use ansi_clusters::walks::Walk;
use ansi_items::ansitok::Kind;

/// The columns of what is seen of a text.
pub fn width(text: &str, view: View) -> usize
    ensures { result ≡ columns (seen_text view text.now) }
{
    match plain_runs(text) {
        (columns, None) => columns,
        (columns, Some(next)) => walked_width(text, view, next, columns),
    }
}

/// The columns of the characters of a text that are clusters by themselves beside each other, and the walk
/// after them: at a run with another character, or before the last letter that precedes it there. If the other
/// one may join a character before a sequence, they are none, and the walk is at the beginning.
fn plain_runs(text: &str) -> (usize, Option<Walk>)
    ensures { MatchOption result.1 ((view : View) → result.0 ≡ columns (seen_text view text.now))
        (IsCounted text.now result.0) }
{
    let mut position = 0;
    let mut columns = 0;
    for step in Steps::new(text) {
        if step.item.kind != Kind::Text {
            continue;
        }
        let (len, more) = plain_part(text, step);
        if len < step.item.end - step.item.start {
            let run = Walk::at_run(&step.item, position);
            if len == 0 && position > 0 && !run.ends_ascii(text) {
                return (0, Some(Walk::start(text)));
            }
            if len <= step.printable {
                return (columns, Some(run));
            }
            let (walk, more) = run.past_plain(text, len, more);
            return (columns + more, Some(walk));
        }
        position += len;
        columns += more;
    }
    (columns, None)
}

/// The columns of what is seen of a text, cluster by cluster, after a walk before which there are
/// `before` columns.
fn walked_width(text: &str, view: View, from: Walk, before: usize) -> usize
    requires walk { IsWalkIn view text.now from }
    requires counted { IsCountedTo view text.now from.position before }
    ensures { result ≡ columns (seen_text view text.now) }
{
    let mut walk = from;
    let mut total = before;
    'clusters: loop {
        let (later, more) = walk.past_singles(text, usize::MAX, view);
        if more > 0 {
            total += more;
            walk = later;
            continue;
        }
        let Some((next, columns)) = walk.read_cluster(text, view) else {
            return total;
        };
        total += columns;
        walk = next;
    }
}
