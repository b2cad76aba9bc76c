// A mesh copied as it is.
ghost use Rattle.std.specs.Prelude.{◌≡◌, ◌≤◌, length};
ghost use Rattle.lists.specs.Lists.{overlaid};

// The mesh as it came, to the outputs.
pub fn copy_mesh(points: &[f32], faces: &[u32], out_points: &mut [f32], out_faces: &mut [u32])
    requires { (length points.now ≤ length out_points.old) × (length faces.now ≤ length out_faces.old) }
    ensures points { out_points.new ≡ overlaid points.now out_points.old }
    ensures faces { out_faces.new ≡ overlaid faces.now out_faces.old }
{
    lists::copy(points, out_points);
    lists::copy(faces, out_faces);
}
